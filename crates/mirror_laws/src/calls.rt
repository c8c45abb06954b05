// A call over a party on two disks is an event, told by a call that does nothing.
ghost use Rattle.std.specs.Prelude.{List, ℕ};
ghost use Rattle.party_state.specs.declared.command.Input.{Input as TheInput};
ghost use Rattle.x_party.specs.declared.outcome.Outcome.{Outcome as TheOutcome};
ghost use Rattle.x_pair.specs.Outcomes.{MakesPair, IsSafePair, turning};
ghost use Rattle.mirror_laws.specs.Calls.{IsPairCall};

use key_store::law_one_finding;
use member::law_refusal;
use mirror_store::law_recovers;
use world_laws::law_inputs;
use x_disk::Shelf;
use x_party::law_one_space;

/// The turn of a party on two disks of a shelf is the event of its input at the party, whatever the network: whole, where the party
/// answered, and cut off, where a crash came first.
pub fn law_mirror_calls<H: Shelf>()
    ensures { (old new : H) (name mirror bytes : List ℕ) (i : TheInput) (moment : ℕ) (o : TheOutcome) → MakesPair (turning name i moment) (H.entry old name) (H.entry old mirror) (H.entry new name) (H.entry new mirror) o
        → IsSafePair (turning name i moment) (H.entry old name) (H.entry old mirror) (H.entry new name) (H.entry new mirror)
        → IsPairCall name bytes i moment (H.entry old name) (H.entry old mirror) (H.entry new name) (H.entry new mirror) o }
{
    law_inputs();
    law_refusal();
    law_recovers();
    law_one_finding();
    law_one_space();
}
