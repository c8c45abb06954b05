// The range of what commands change, and the length of what they write, by a call that does nothing.
ghost use Rattle.std.specs.Prelude.{ℕ};
ghost use Rattle.party_state.specs.declared.command.Command.{Command as TheCommand};
ghost use Rattle.party_state.specs.Ranges.{IsParty};
ghost use Rattle.party_state.specs.State.{Party};
ghost use Rattle.role_base.specs.Deciding.{decision_of};
ghost use Rattle.role_base.specs.Ranged.{IsCommand, IsRanged};
ghost use Rattle.bank_orders.specs.Orders.{command_row};

use csm_write::law_canon_short;
use party_state::{law_accept, law_first_link, law_found, law_found_in_range};
use x_gen::{law_draws_odd, law_odd_stays};
use x_seal::law_keys_below;

/// What a command changes can be kept, each part of it in its range, and what it writes has at most
/// 1,024 bytes.
pub fn law_ranged()
    ensures { (p : Party) (c : TheCommand) (moment : ℕ) → IsParty p → IsCommand c → IsRanged p (decision_of p (command_row p c moment)) }
{
    law_canon_short();
    law_keys_below();
    law_draws_odd();
    law_odd_stays();
    law_accept();
    law_found();
    law_first_link();
    law_found_in_range();
}
