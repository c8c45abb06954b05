// What holds of every image, told by a call that does nothing.
ghost use Rattle.std.specs.Prelude.{◌≡◌, List, ℕ};
ghost use Rattle.key_journal.specs.Opening.{AreBytes};
ghost use Rattle.party_state.specs.declared.command.Input.{Input as TheInput};
ghost use Rattle.party_state.specs.State.{Party};
ghost use Rattle.change_code.specs.declared.space.Space.{Space};
ghost use Rattle.key_store.specs.Store.{StandsWith};
ghost use Rattle.x_party.specs.Asking.{IsDueAnswer};
ghost use Rattle.x_party.specs.Dues.{IsDue, IsDueCompaction, IsDueCreation, IsDueMigration, IsDueShow, IsDueWiping};
ghost use Rattle.x_party.specs.declared.outcome.Outcome.{Outcome as TheOutcome};

use key_journal::law_one_list;
use key_store::law_one_finding;

/// Whatever bytes an image holds, it can't be that no outcome is due of a call over it.
pub fn law_always_due()
    ensures turn { (name : List ℕ) (i : TheInput) (moment : ℕ) (image : List ℕ) → AreBytes image → ((o : TheOutcome) → IsDue name i moment image o → ⊥) → ⊥ }
    ensures show { (image : List ℕ) → AreBytes image → ((o : TheOutcome) → IsDueShow image o → ⊥) → ⊥ }
    ensures asking { (answer : Party → TheOutcome) (image : List ℕ) → AreBytes image → ((o : TheOutcome) → IsDueAnswer answer image o → ⊥) → ⊥ }
    ensures compaction { (image : List ℕ) → AreBytes image → ((o : TheOutcome) → IsDueCompaction image o → ⊥) → ⊥ }
    ensures migration { (image : List ℕ) → AreBytes image → ((o : TheOutcome) → IsDueMigration image o → ⊥) → ⊥ }
    ensures wiping { (image : List ℕ) → AreBytes image → ((o : TheOutcome) → IsDueWiping image o → ⊥) → ⊥ }
    ensures creation { (image : List ℕ) → (o : TheOutcome) × IsDueCreation image o }
{
    law_one_finding();
}

/// An image stands for one party, with one space.
pub fn law_one_space()
    ensures { (image : List ℕ) (first second : Party) (space other : Space) → StandsWith image first space → StandsWith image second other → (first ≡ second) × (space ≡ other) }
{
    law_one_finding();
    law_one_list();
}
