// What exchanges with centres wait for.
ghost use Rattle.std.specs.Prelude.{◌≡◌};
ghost use Rattle.party_state.specs.State.{exchange_with};
ghost use Rattle.bank_keys.specs.Waiting.{waiting_by, waiting_with, is_asked_by, is_asked_in};

use party_state::{Kind, State};
use x_base::{Count, Ident};

/// A key of 64 bits that is with a translation centre: for whom, its value and its count there.
#[derive(Clone, Copy)]
pub struct KeyAtCentre {
    pub ultimate: Ident,
    pub value: u64,
    pub cta: Count,
}

fn waiting_by(kind: &Kind) -> Option<KeyAtCentre>
    ensures { result ≡ waiting_by kind.now }
{
    match kind {
        Kind::Translating {
            ultimate,
            value,
            cta,
        } => Some(KeyAtCentre {
            ultimate: *ultimate,
            value: *value,
            cta: *cta,
        }),
        Kind::Asked { .. } | Kind::KeySent { .. } | Kind::Ending { .. } | Kind::PairSent { .. } =>
            None,
    }
}

/// The key that is with this translation centre.
pub(crate) fn waiting_with(state: &State, peer: &Ident) -> Option<KeyAtCentre>
    ensures { result ≡ waiting_with state.now peer.now }
{
    let exchange = state.exchange(peer)?;
    waiting_by(&exchange.kind)
}

fn is_asked_by(kind: &Kind, ultimate: &Ident) -> bool
    ensures { result ≡ is_asked_by kind.now ultimate.now }
{
    match kind {
        Kind::Asked { ultimate: asked } => *asked == *ultimate,
        Kind::Translating { .. }
        | Kind::KeySent { .. }
        | Kind::Ending { .. }
        | Kind::PairSent { .. } => false,
    }
}

/// Whether this centre was asked for a key for this ultimate recipient.
pub(crate) fn is_asked(state: &State, centre: &Ident, ultimate: &Ident) -> bool
    ensures { result ≡ is_asked_in (exchange_with centre.now state.now) ultimate.now }
{
    match state.exchange(centre) {
        Some(exchange) => is_asked_by(&exchange.kind, ultimate),
        None => false,
    }
}
