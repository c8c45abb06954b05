// The range of what arrivals change, and the length of what is answered, by a call that does nothing.
ghost use Rattle.std.specs.Prelude.{◌≡◌, ℕ};
ghost use Rattle.csm_grammar.specs.declared.arrival.Arrival.{Arrival as TheArrival};
ghost use Rattle.csm_grammar.specs.declared.message.Message.TheVariants as message;
ghost use Rattle.csm_grammar.specs.declared.message.Rsi.{Rsi as TheRsi};
ghost use Rattle.csm_grammar.specs.declared.message.Rsm.{Rsm as TheRsm};
ghost use Rattle.csm_grammar.specs.declared.message.Esm.{Esm as TheEsm};
ghost use Rattle.csm_grammar.specs.declared.message.Dsm.{Dsm as TheDsm};
ghost use Rattle.party_state.specs.Ranges.{IsParty};
ghost use Rattle.party_state.specs.State.{Party};
ghost use Rattle.role_base.specs.Deciding.{decision_of};
ghost use Rattle.role_base.specs.Ranged.{IsRanged};
ghost use Rattle.bank_arrivals.specs.Rsi.{rsi};
ghost use Rattle.bank_arrivals.specs.Rsm.{rsm};
ghost use Rattle.bank_arrivals.specs.Esm.{error};
ghost use Rattle.bank_arrivals.specs.Dsm.{dsm};

use csm_grammar::law_arrived;
use csm_write::law_canon_short;
use party_state::{law_accept, law_first_link, law_found, law_found_in_range};
use x_gen::law_draws_odd;
use x_seal::law_keys_below;

/// What each of these arrivals changes can be kept, each part of it in its range, and what is answered
/// has at most 1,024 bytes.
pub fn law_ranged()
    ensures rsi { (p : Party) (a : TheArrival) (m : TheRsi) (moment : ℕ) → IsParty p → IsRanged p (decision_of p (rsi p a m moment)) }
    ensures rsm { (p : Party) (a : TheArrival) (m : TheRsm) → a.parsed.message ≡ message.Rsm m → IsParty p → IsRanged p (decision_of p (rsm p a m)) }
    ensures esm { (p : Party) (a : TheArrival) (m : TheEsm) → a.parsed.message ≡ message.Esm m → IsParty p → IsRanged p (decision_of p (error p a m)) }
    ensures dsm { (p : Party) (a : TheArrival) (m : TheDsm) → a.parsed.message ≡ message.Dsm m → IsParty p → IsRanged p (decision_of p (dsm p a m)) }
{
    law_arrived();
    law_canon_short();
    law_keys_below();
    law_draws_odd();
    law_accept();
    law_found();
    law_found_in_range();
    law_first_link();
}
