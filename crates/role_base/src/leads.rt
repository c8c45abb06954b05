// A key, and whether the code of an arrival is made under it.
ghost use Rattle.std.specs.Prelude.{◌≡◌};
ghost use Rattle.party_tables.specs.Names.{full_name};
ghost use Rattle.role_base.specs.Texts.{lead_under};

use csm_grammar::{Arrival, Shut};
use party_state::{KeyRec, Lead, State};
use x_base::FullName;
use x_mac::mac;

/// This key, with its full name, and whether the arrival's code is made under it; no key-encrypting
/// key beside it.
#[tactic(auto, unfolding(crate::specs::Texts::is_verified))]
pub fn lead_under(arrival: &Arrival, under: FullName, value: u64) -> Lead
    ensures { result ≡ lead_under arrival.now under value }
{
    let verified = match arrival.parsed.shut {
        Shut::Mac(code) => mac(value, arrival.auth()) == code,
        Shut::Edc(_) => false,
    };
    Lead {
        under,
        value,
        verified,
        opened: None,
    }
}

/// The key of a record that stands, and whether the arrival's code is made under it.
pub fn key_lead(state: &State, arrival: &Arrival, key: &KeyRec) -> Lead
    ensures { result ≡ lead_under arrival.now (full_name state.now.own key.now) key.now.value }
{
    lead_under(arrival, key.full_name(&state.own()), key.value)
}
