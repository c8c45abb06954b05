// What the exchange with a peer is about.
ghost use Rattle.std.specs.Prelude.{◌≡◌};
ghost use Rattle.party_tables.specs.Names.{name_behind};
ghost use Rattle.role_base.specs.Exchanges.{record_of, sent_by, twins_by, ending_by, ending_with, stands_by, is_waiting, new_label, new_link};

use party_state::{
    Exchange, KeyRec, Kind, LinkRec, State, Via, law_found, law_found_in_range, name_behind,
};
use x_base::{Ident, KeyName, Label, Side};

/// A key that was sent to a peer, and the way.
#[derive(Clone, Copy)]
pub struct Sent {
    pub key: KeyRec,
    pub via: Via,
}

/// Two keys that were sent to a peer in one message.
#[derive(Clone, Copy)]
pub struct Twins {
    pub first: KeyRec,
    pub second: KeyRec,
}

impl Twins {
    ghost use Rattle.role_base.specs.Exchanges.{twins_value};

    /// The key of 64 bits under which their message and its answers are closed: the exclusive-or of
    /// the two.
    pub fn value(&self) -> u64
        ensures { result ≡ twins_value self.now }
    {
        self.first.value ^ self.second.value
    }
}

/// The record of a key shared with the peer.
pub fn record_of(state: &State, peer: &Ident, name: &KeyName) -> Option<KeyRec>
    ensures { result ≡ record_of state.now peer.now name.now }
{
    state.key(peer, name).copied()
}

/// The record of the key behind this one, shared with the peer.
#[tactic(auto, using(crate::proofs::TwinKeys::none_behind))]
pub fn record_behind(state: &State, peer: &Ident, name: &KeyName) -> Option<KeyRec>
    ensures { result ≡ record_of state.now peer.now (name_behind name.now) }
{
    // Tells that the count of a record that stands is a count.
    state.law_party();
    law_found();
    law_found_in_range();
    let behind = name_behind(name)?;
    record_of(state, peer, &behind)
}

/// The key that an exchange of this kind sent to the peer.
pub fn sent_by(state: &State, peer: &Ident, kind: &Kind) -> Option<Sent>
    ensures { result ≡ sent_by state.now peer.now kind.now }
{
    match kind {
        Kind::KeySent { name, via } => {
            let key = record_of(state, peer, name)?;
            Some(Sent { key, via: *via })
        }
        Kind::Asked { .. }
        | Kind::Translating { .. }
        | Kind::Ending { .. }
        | Kind::PairSent { .. } => None,
    }
}

/// The two keys that an exchange of this kind sent to the peer.
pub fn twins_by(state: &State, peer: &Ident, kind: &Kind) -> Option<Twins>
    ensures { result ≡ twins_by state.now peer.now kind.now }
{
    match kind {
        Kind::PairSent { name } => {
            let first = record_of(state, peer, name)?;
            let second = record_behind(state, peer, name)?;
            Some(Twins { first, second })
        }
        Kind::Asked { .. }
        | Kind::Translating { .. }
        | Kind::KeySent { .. }
        | Kind::Ending { .. } => None,
    }
}

fn ending_by(state: &State, peer: &Ident, kind: &Kind) -> Option<KeyRec>
    ensures { result ≡ ending_by state.now peer.now kind.now }
{
    match kind {
        Kind::Ending { name } => record_of(state, peer, name),
        Kind::Asked { .. }
        | Kind::Translating { .. }
        | Kind::KeySent { .. }
        | Kind::PairSent { .. } => None,
    }
}

/// The key whose end was sent to the peer and isn't answered yet.
pub fn ending_with(state: &State, peer: &Ident) -> Option<KeyRec>
    ensures { result ≡ ending_with state.now peer.now }
{
    let exchange = state.exchange(peer)?;
    ending_by(state, peer, &exchange.kind)
}

fn stands_by(state: &State, peer: &Ident, kind: &Kind) -> bool
    ensures { result ≡ stands_by state.now peer.now kind.now }
{
    match kind {
        Kind::KeySent { name, .. } | Kind::Ending { name } => {
            record_of(state, peer, name).is_some()
        }
        Kind::PairSent { name } => {
            record_of(state, peer, name).is_some() && record_behind(state, peer, name).is_some()
        }
        Kind::Asked { .. } | Kind::Translating { .. } => true,
    }
}

/// Whether an exchange with the peer stands, and each record that it names.
pub fn is_waiting(state: &State, peer: &Ident) -> bool
    ensures { result ≡ is_waiting state.now peer.now }
{
    match state.exchange(peer) {
        Some(exchange) => stands_by(state, peer, &exchange.kind),
        None => false,
    }
}

fn new_label(via: &Via) -> Option<Label>
    ensures { result ≡ new_label via.now }
{
    match via {
        Via::Direct { new, .. } => *new,
        Via::Distribution { .. } | Via::Translation { .. } => None,
    }
}

/// The link of a new key-encrypting key that went this way.
pub fn new_link(state: &State, peer: &Ident, via: &Via) -> Option<LinkRec>
    ensures { result ≡ new_link state.now peer.now via.now }
{
    let label = new_label(via)?;
    state.link(peer, &label, Side::Sends).copied()
}
