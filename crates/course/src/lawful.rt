// What holds of the end of each honest run from a start, told by a call that does nothing.
ghost use Rattle.std.specs.Prelude.{◌≡◌, List};
ghost use Rattle.world_laws.specs.World.{World};
ghost use Rattle.world_laws.specs.Events.{Event, AreEvents};
ghost use Rattle.world_laws.specs.Honest.{HonestRun};
ghost use Rattle.world_laws.specs.Starts.{IsStart};
ghost use Rattle.world_laws.specs.Steps.{run};
ghost use Rattle.course.specs.Lawful.{IsLawful};

use world_laws::{law_agreement, law_ended, law_once, law_one_key_per_count, law_start};

/// The end of each honest run of events from a start is lawful.
pub fn law_lawful()
    ensures { (start w : World) (events : List Event) → IsStart start → AreEvents events → w ≡ run 1 start events → HonestRun 1 start events → IsLawful start events w }
{
    law_start();
    law_one_key_per_count();
    law_once();
    law_agreement();
    law_ended();
}
