// The range of what a centre changes, and the length of what it writes, by a call that does nothing.
ghost use Rattle.std.specs.Prelude.{ℕ};
ghost use Rattle.party_state.specs.declared.command.Input.{Input as TheInput};
ghost use Rattle.party_state.specs.Ranges.{IsParty};
ghost use Rattle.party_state.specs.State.{Party};
ghost use Rattle.role_base.specs.Deciding.{decision_of};
ghost use Rattle.role_base.specs.Ranged.{IsInput, IsRanged};
ghost use Rattle.distribution_role.specs.Rows.{distribution_row};

use csm_grammar::law_arrived;
use csm_write::law_canon_short;
use party_state::{law_accept, law_found, law_found_in_range};
use x_gen::{law_draws_odd, law_odd_stays};
use x_seal::law_keys_below;

/// What a centre changes can be kept, each part of it in its range, and what it writes has at most
/// 1,024 bytes, where the parts of its state and of a command are in their ranges.
pub fn law_ranged()
    ensures { (p : Party) (i : TheInput) (moment : ℕ) → IsParty p → IsInput i → IsRanged p (decision_of p (distribution_row p i moment)) }
{
    law_arrived();
    law_canon_short();
    law_keys_below();
    law_draws_odd();
    law_odd_stays();
    law_accept();
    law_found();
    law_found_in_range();
}
