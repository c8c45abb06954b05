// The tests that several rows have in common.
ghost use Rattle.std.specs.Prelude.{◌≡◌, ◌+◌, ◌≤◌, ◌++◌, ◌∷◌, [], false, bytes_eq};
ghost use Rattle.x_base.specs.Count.{IsCount};
ghost use Rattle.x_base.specs.declared.verdict.Verdict.TheVariants.{BadMac};
ghost use Rattle.party_state.specs.State.{centre_label, record_with};
ghost use Rattle.party_state.specs.Verdicts.{verdict_of};
ghost use Rattle.role_base.specs.Deciding.{refusal_of, IsDecision};
ghost use Rattle.role_base.specs.Conditions.{is_for, other_class, is_data_key, is_two_keys, body_issuer, answer_front, has_count, has_two_counts, count_tests, has_key_room, one_more, has_room_for_two, has_link_room};

use crate::decisions::refusal;
use crate::verdicts::{verdict_after, verdict_of};
use csm_grammar::{KsmBody, Service};
use party_state::{Decision, LinkRec, MOST_KEYS, MOST_LINKS, RecordKey, State};
use x_base::{Count, Ident, KeyName, LIMIT, Label, Side, Verdict};

/// Whether the receiver is this party, and the originator isn't.
pub fn is_for(state: &State, receiver: &Ident, originator: &Ident) -> bool
    ensures { result ≡ is_for state.now receiver.now originator.now }
{
    let own = state.own();
    *receiver == own && *originator != own
}

/// A message that isn't served. Its sender, or the centre that it names, is to be known.
#[tactic(auto, using(crate::proofs::Kept::is_refused))]
pub fn other_class(state: &State, receiver: &Ident, originator: &Ident, known: &Ident) -> Decision
    ensures { IsDecision state.now (other_class state.now receiver.now originator.now known.now) result }
{
    refusal(verdict_of(&[
        (is_for(state, receiver, originator), Verdict::NotForMe),
        (state.knows(known), Verdict::UnknownPeer),
        (false, Verdict::WrongClass),
    ]))
}

/// Whether the request is for a data key.
pub fn is_data_key(service: Service) -> bool
    ensures { result ≡ is_data_key service }
{
    match service {
        Service::Kd => true,
        Service::KdKd | Service::Kk | Service::DoubleKk | Service::KkKd | Service::DoubleKkKd =>
            false,
    }
}

/// Whether the request is for two data keys.
pub fn is_two_keys(service: Service) -> bool
    ensures { result ≡ is_two_keys service }
{
    match service {
        Service::KdKd => true,
        Service::Kd | Service::Kk | Service::DoubleKk | Service::KkKd | Service::DoubleKkKd =>
            false,
    }
}

/// Who shares the key-encrypting key under which a key comes: its originator, or the centre.
pub fn body_issuer(originator: &Ident, body: &KsmBody) -> Ident
    ensures { result ≡ body_issuer originator.now body.now }
{
    match body {
        KsmBody::Direct { .. } | KsmBody::Twin { .. } => *originator,
        KsmBody::Centre { centre, .. } => *centre,
    }
}

/// Whether a count is left.
pub fn has_count(link: &LinkRec) -> bool
    ensures { result ≡ has_count link.now }
{
    link.next <= LIMIT
}

/// Whether two counts are left.
pub fn has_two_counts(link: &LinkRec) -> bool
    ensures { result ≡ has_two_counts link.now }
{
    link.next < LIMIT
}

/// The count behind this one.
pub fn count_behind(count: Count) -> Count
    requires { IsCount (count + 1) }
    ensures { result ≡ count + 1 }
{
    match Count::of(count.value() + 1) {
        Some(behind) => behind,
        None => unreachable!(),
    }
}

/// The tests of a count that arrived, against the expected one.
pub fn count_tests(link: &LinkRec, count: Count) -> [(bool, Verdict); 2]
    ensures { result ≡ count_tests link.now count }
{
    let left = has_count(link);
    [
        (
            !left || link.next <= count.value(),
            Verdict::CountLow(link.next),
        ),
        (left, Verdict::CountSpent),
    ]
}

/// Whether 1,024 key records stand at most after this one is put.
pub fn has_key_room(state: &State, peer: &Ident, name: &KeyName) -> bool
    ensures { result ≡ has_key_room state.now (record { peer = peer.now; name = name.now }) }
{
    // Below the limit there is room whether or not the record stands, so it isn't looked up.
    if state.key_count() < MOST_KEYS {
        return true;
    }
    match state.key(peer, name) {
        Some(_) => state.key_count() <= MOST_KEYS,
        None => false,
    }
}

/// How many key records more stand after one is put under this key.
fn one_more(state: &State, key: &RecordKey) -> usize
    ensures more { result ≡ one_more (record_with key.now state.now) }
    ensures few { result ≤ 1 }
{
    match state.key(&key.peer, &key.name) {
        Some(_) => 0,
        None => 1,
    }
}

/// Whether 1,024 key records stand at most after two are put under these keys.
#[tactic(auto, using(crate::proofs::Rooms::fits_two))]
pub fn has_room_for_two(state: &State, first: &RecordKey, second: &RecordKey) -> bool
    ensures { result ≡ has_room_for_two state.now first.now second.now }
{
    let more = one_more(state, first) + one_more(state, second);
    state.key_count() <= MOST_KEYS - more
}

/// Whether 64 links stand at most after this one is put.
pub fn has_link_room(state: &State, peer: &Ident, label: &Label, side: Side) -> bool
    ensures { result ≡ has_link_room state.now (record { peer = peer.now; label = label.now; side = side }) }
{
    match state.link(peer, label, side) {
        Some(_) => state.link_count() <= MOST_LINKS,
        None => state.link_count() < MOST_LINKS,
    }
}

/// The tests of an answer before its code's: it is for this party, and belongs to an exchange that
/// stands.
pub fn answer_front(
    state: &State,
    receiver: &Ident,
    originator: &Ident,
    stands: bool,
) -> [(bool, Verdict); 2]
    ensures { result ≡ answer_front state.now receiver.now originator.now stands }
{
    [
        (is_for(state, receiver, originator), Verdict::NotForMe),
        (stands, Verdict::NoExchange),
    ]
}

/// Whether the label is that of the links with centres.
pub fn is_of_centre(label: &Label) -> bool
    ensures { result ≡ bytes_eq label.now centre_label }
{
    label.bytes() == b"C".as_slice()
}

/// The verdict of an answer, where its code was tested.
pub fn answer_verdict(
    state: &State,
    receiver: &Ident,
    originator: &Ident,
    stands: bool,
    verified: bool,
) -> Verdict
    ensures { result ≡ verdict_of (answer_front state.now receiver.now originator.now stands ++ (verified, BadMac) ∷ []) }
{
    let tests_before_code = answer_front(state, receiver, originator, stands);
    verdict_after(&tests_before_code, &[(verified, Verdict::BadMac)])
}

/// Refused, since it answers no exchange.
pub fn not_answering(state: &State, receiver: &Ident, originator: &Ident) -> Decision
    ensures { result ≡ refusal_of (verdict_of (answer_front state.now receiver.now originator.now false)) }
{
    refusal(verdict_of(&answer_front(state, receiver, originator, false)))
}
