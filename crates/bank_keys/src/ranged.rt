// The range of what keys that come change, and the length of what is answered, by a call that does nothing.
ghost use Rattle.std.specs.Prelude.{◌≡◌};
ghost use Rattle.csm_grammar.specs.declared.arrival.Arrival.{Arrival as TheArrival};
ghost use Rattle.csm_grammar.specs.declared.message.Message.TheVariants as message;
ghost use Rattle.csm_grammar.specs.declared.message.Ksm.{Ksm as TheKsm};
ghost use Rattle.csm_grammar.specs.declared.message.Rtr.{Rtr as TheRtr};
ghost use Rattle.party_state.specs.Ranges.{IsParty};
ghost use Rattle.party_state.specs.State.{Party};
ghost use Rattle.role_base.specs.Deciding.{decision_of};
ghost use Rattle.role_base.specs.Ranged.{IsRanged};
ghost use Rattle.bank_keys.specs.Ksm.{key_arrives};
ghost use Rattle.bank_keys.specs.Rtr.{rtr};

use csm_grammar::law_arrived;
use csm_write::law_canon_short;
use party_state::{law_accept, law_found, law_found_in_range, law_put, law_same};
use x_gen::law_odd_stays;
use x_seal::law_keys_below;

/// What a key service message or a centre's answer changes can be kept, each part of it in its range,
/// and what is answered has at most 1,024 bytes.
pub fn law_ranged()
    ensures ksm { (p : Party) (a : TheArrival) (m : TheKsm) → a.parsed.message ≡ message.Ksm m → IsParty p → IsRanged p (decision_of p (key_arrives p a m)) }
    ensures rtr { (p : Party) (a : TheArrival) (m : TheRtr) → a.parsed.message ≡ message.Rtr m → IsParty p → IsRanged p (decision_of p (rtr p a m)) }
{
    law_arrived();
    law_canon_short();
    law_odd_stays();
    law_keys_below();
    law_accept();
    law_same();
    law_found();
    law_put();
    law_found_in_range();
}
