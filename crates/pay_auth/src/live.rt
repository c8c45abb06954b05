// The keys under which payments are made.
ghost use Rattle.std.specs.Prelude.{◌≡◌};
ghost use Rattle.pay_auth.specs.Decisions.{is_usable, live_value};

use party_state::State;
use party_tables::KeyStatus;
use x_base::{Ident, KeyName};

fn is_usable(status: KeyStatus) -> bool
    ensures { result ≡ is_usable status }
{
    matches!(status, KeyStatus::Live | KeyStatus::Held)
}

/// The value of the key of that name that is shared with that peer, where it is live or held.
pub(crate) fn live_value(state: &State, peer: &Ident, name: &KeyName) -> Option<u64>
    ensures { result ≡ live_value peer.now name.now state.now }
{
    match state.key(peer, name) {
        Some(record) if is_usable(record.status) => Some(record.value),
        _ => None,
    }
}
