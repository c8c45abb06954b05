// What holds of every image, told by a call that does nothing.
ghost use Rattle.std.specs.Prelude.{◌≡◌, List, ℕ, false};
ghost use Rattle.key_journal.specs.Journal.{is_blank};
ghost use Rattle.key_journal.specs.Opening.{AreBytes};
ghost use Rattle.journal_state.specs.States.{StandsFor, IsFirstDamage, IsNothing};

use crate::judge::Judge;
use key_journal::{law_blank_sound_or_damaged, law_gates, law_one_list};

/// Each image of bytes is blank, stands for one state, or has one first damage, and no two of these: one that stands for a state
/// stands for no other, isn't blank, and has no damage; none has two first damages; and none is nothing.
pub fn law_one_finding<J: Judge>()
    ensures state { (image : List ℕ) (a b : J) → StandsFor J.step J.start image a → StandsFor J.step J.start image b → a ≡ b }
    ensures not_blank { (image : List ℕ) (s : J) → StandsFor J.step J.start image s → is_blank image ≡ false }
    ensures undamaged { (image : List ℕ) (s : J) (place : ℕ) → StandsFor J.step J.start image s → IsFirstDamage J.step J.start image place → ⊥ }
    ensures one_damage { (image : List ℕ) (p q : ℕ) → IsFirstDamage J.step J.start image p → IsFirstDamage J.step J.start image q → p ≡ q }
    ensures one_of { (image : List ℕ) → AreBytes image → IsNothing J.step J.start image → ⊥ }
{
    law_one_list();
    law_gates();
    law_blank_sound_or_damaged();
}
