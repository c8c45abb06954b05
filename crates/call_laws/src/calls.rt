// A call over a party is an event, told by a call that does nothing.
ghost use Rattle.std.specs.Prelude.{List, ℕ, Some};
ghost use Rattle.csm_grammar.specs.declared.arrival.Arrival.{Arrival as TheArrival};
ghost use Rattle.party_state.specs.declared.command.Command.{Command as TheCommand};
ghost use Rattle.party_state.specs.declared.command.Input.TheVariants.{Ordered, Arrived};
ghost use Rattle.x_party.specs.Outcomes.{TakesTurn, IsSafe, CompactsParty, MigratesParty, IsSafeCompaction, IsSafeMigration};
ghost use Rattle.x_party.specs.declared.outcome.Outcome.{Outcome as TheOutcome};
ghost use Rattle.world_laws.specs.Events.{Orders, Hears, Compacts, Migrates};
ghost use Rattle.call_laws.specs.Calls.{IsCall, IsNamedCall};

use key_store::law_one_finding;
use x_disk::Shelf;
use x_party::law_one_space;

/// A party's turn with a command or a message, its compaction, and its migration, is that event at the party, whatever the network: whole,
/// where the party answered, and cut off, where a crash came first. Where another party stands on the disk than the one that
/// is to have a turn, nothing is written.
pub fn law_calls<H: Shelf>()
    ensures commands { (old new : H) (name : List ℕ) (c : TheCommand) (moment : ℕ) (o : TheOutcome) → TakesTurn name (H.entry old name) (H.entry new name) (Ordered c) moment o → IsSafe name (H.entry old name) (H.entry new name) (Ordered c) moment
        → IsNamedCall name (H.entry old name) (H.entry new name) (Orders c) moment o }
    ensures arrivals { (old new : H) (name bytes : List ℕ) (a : TheArrival) (moment : ℕ) (o : TheOutcome) → TakesTurn name (H.entry old name) (H.entry new name) (Arrived a) moment o → IsSafe name (H.entry old name) (H.entry new name) (Arrived a) moment
        → IsNamedCall name (H.entry old name) (H.entry new name) (Hears bytes (Some a)) moment o }
    ensures compactions { (old new : H) (name : List ℕ) (moment : ℕ) (o : TheOutcome) → CompactsParty (H.entry old name) (H.entry new name) o → IsSafeCompaction (H.entry old name) (H.entry new name)
        → IsCall (H.entry old name) (H.entry new name) Compacts moment o }
    ensures migrations { (old new : H) (name : List ℕ) (moment : ℕ) (o : TheOutcome) → MigratesParty (H.entry old name) (H.entry new name) o → IsSafeMigration (H.entry old name) (H.entry new name)
        → IsCall (H.entry old name) (H.entry new name) Migrates moment o }
{
    law_one_space();
    law_one_finding();
}
