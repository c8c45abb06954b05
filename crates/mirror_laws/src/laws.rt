// What holds of every run of parties that keep one disk or two, told by a call that does nothing.
ghost use Rattle.std.specs.Prelude.{List};
ghost use Rattle.world_laws.specs.World.{World};
ghost use Rattle.world_laws.specs.Starts.{HasAcceptedNothing, IsBareStart, IsStart};
ghost use Rattle.world_laws.specs.Laws.{OneKeyPerCount, Once, Agreement, EndedBoth};
ghost use Rattle.mirror_laws.specs.Runs.{PairEvent, pair_run, ArePairEvents, HonestPairRun};

use world_laws::{law_agreement, law_ended, law_once, law_one_key_per_count};

/// The laws of a network hold also where disks are lost, one of a party's two at a time, between two events or behind one that is
/// cut off: no count offsets two different keys under one key-encrypting key, and each key service message takes effect at most
/// once; and in an honest run a key that its originator counts as live is held by its partner, with the same value, name and
/// counter, unless the partner accepted its end, and where the answer to the end of a key was accepted, the partner's record of
/// that key is ended or absent.
pub fn law_mirror()
    ensures counts { (start : World) (events : List PairEvent) → IsBareStart start → ArePairEvents events → OneKeyPerCount (pair_run 1 start events) }
    ensures once { (start : World) (events : List PairEvent) → HasAcceptedNothing start → ArePairEvents events → Once (pair_run 1 start events) }
    ensures agreement { (start : World) (events : List PairEvent) → IsStart start → ArePairEvents events → HonestPairRun 1 start events → Agreement (pair_run 1 start events) }
    ensures ended { (start : World) (events : List PairEvent) → IsStart start → ArePairEvents events → HonestPairRun 1 start events → EndedBoth (pair_run 1 start events) }
{
    law_one_key_per_count();
    law_once();
    law_agreement();
    law_ended();
}
