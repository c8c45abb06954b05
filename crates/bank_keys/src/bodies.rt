// What a key service message brings, by its form: the link in use, the count, the key and its name.
ghost use Rattle.std.specs.Prelude.{◌≡◌, ◌+◌, cond, nat_lt, IfSome, Some, None};
ghost use Rattle.x_base.specs.Count.{IsCount, count_limit};
ghost use Rattle.role_base.specs.Standing.{LinkStands};
ghost use Rattle.bank_keys.specs.Ksm.{link_in_use, IsCounted, body_link, body_count, body_next, body_counts, body_name, opened_kk, body_new, body_opened, body_code, body_record, body_second, body_taken, link_tests};

use csm_grammar::{Ksm, KsmBody, NewKk};
use party_state::{KeyRec, KeyStatus, Lead, LinkRec, State};
use role_base::{
    ErrorCounts, centre_label, count_behind, direct_name, first_link, has_link_room, is_of_centre,
    link_with, odd_pair,
};
use x_base::{Count, FullName, Ident, KeyName, LIMIT, Label, Side, Verdict};
use x_mac::Pair;
use x_seal::{unwrap, unwrap_pair};

/// The link in use for a key without a centre: the one with that label, which isn't a centre's, or
/// the first.
fn link_in_use(state: &State, originator: &Ident, idk2: &Option<Label>) -> Option<LinkRec>
    ensures link { result ≡ link_in_use state.now originator.now idk2.now }
    ensures stands { IfSome result (LinkStands state.now) }
{
    match idk2 {
        None => first_link(state, originator, Side::Takes),
        Some(label) => {
            if is_of_centre(label) {
                None
            } else {
                link_with(state, originator, label, Side::Takes)
            }
        }
    }
}

/// The link in use for two keys: at the last count there is none.
fn twin_link(state: &State, originator: &Ident, idk2: &Option<Label>, ctp: Count) -> Option<LinkRec>
    ensures link { result ≡ cond (nat_lt ctp count_limit) (link_in_use state.now originator.now idk2.now) None }
    ensures stands { IfSome result (LinkStands state.now) }
    ensures counted { IfSome result (λ _. IsCount (ctp + 1)) }
{
    if ctp.value() < LIMIT {
        link_in_use(state, originator, idk2)
    } else {
        None
    }
}

/// The link in use: with the originator, or with the centre.
pub(crate) fn body_link(state: &State, originator: &Ident, body: &KsmBody) -> Option<LinkRec>
    ensures link { result ≡ body_link state.now originator.now body.now }
    ensures stands { IfSome result (LinkStands state.now) }
    ensures counted { IfSome result (λ _. IsCounted body.now) }
{
    match body {
        KsmBody::Direct { idk2, .. } => link_in_use(state, originator, idk2),
        KsmBody::Centre { centre, .. } => link_with(state, centre, &centre_label(), Side::Takes),
        KsmBody::Twin { idk2, ctp, .. } => twin_link(state, originator, idk2, *ctp),
    }
}

/// The count at which the key comes, of two keys the first.
pub(crate) fn body_count(body: &KsmBody) -> Count
    ensures count { result ≡ body_count body.now }
    ensures range { IsCount (body_count body.now) }
{
    let count = match body {
        KsmBody::Direct { ctp, .. } | KsmBody::Twin { ctp, .. } => *ctp,
        KsmBody::Centre { ctb, .. } => *ctb,
    };
    // The value tells that it is a count.
    count.value();
    count
}

/// The count behind those of the keys.
pub(crate) fn body_next(body: &KsmBody) -> u64
    ensures { result ≡ body_next body.now }
{
    let count = body_count(body).value();
    match body {
        KsmBody::Direct { .. } | KsmBody::Centre { .. } => count + 1,
        KsmBody::Twin { .. } => count + 2,
    }
}

/// The count at which the key comes, under the tag of the message.
pub(crate) fn body_counts(body: &KsmBody) -> ErrorCounts
    ensures { result ≡ body_counts body.now }
{
    match body {
        KsmBody::Direct { ctp, .. } | KsmBody::Twin { ctp, .. } => ErrorCounts {
            ctp: Some(*ctp),
            cta: None,
            ctb: None,
        },
        KsmBody::Centre { ctb, .. } => ErrorCounts {
            ctp: None,
            cta: None,
            ctb: Some(*ctb),
        },
    }
}

/// The full name of the key that comes under a link, of two keys that of the first.
pub(crate) fn body_name(
    state: &State,
    originator: &Ident,
    body: &KsmBody,
    link: &LinkRec,
) -> FullName
    ensures { result ≡ body_name state.now originator.now body.now link.now }
{
    let name = match body {
        KsmBody::Direct { ctp, .. } | KsmBody::Twin { ctp, .. } => {
            direct_name(link.peer, link.label, *ctp)
        }
        KsmBody::Centre { centre, ctb, .. } => KeyName {
            issuer: *centre,
            originator: *originator,
            label: centre_label(),
            count: *ctb,
        },
    };
    FullName {
        name,
        recipient: state.own(),
    }
}

/// The new key-encrypting key that comes under a pair at a count, with odd parity. A single one is
/// both halves.
fn opened_kk(pair: Pair, count: Count, new: NewKk) -> Pair
    ensures { result ≡ opened_kk pair count new }
{
    match new {
        NewKk::Double(left, right) => odd_pair(unwrap_pair(pair, count, Pair { left, right })),
        NewKk::Single(sealed) => {
            let key = unwrap(pair, count, sealed);
            odd_pair(Pair {
                left: key,
                right: key,
            })
        }
    }
}

/// The label of the new key-encrypting key, and the key as encrypted.
fn body_new(body: &KsmBody) -> Option<(Label, NewKk)>
    ensures { result ≡ body_new body.now }
{
    match body {
        KsmBody::Direct { new, .. } => *new,
        KsmBody::Centre { .. } | KsmBody::Twin { .. } => None,
    }
}

/// The new key-encrypting key, opened under the pair of the link in use.
pub(crate) fn body_opened(pair: Pair, body: &KsmBody) -> Option<Pair>
    ensures { result ≡ body_opened pair body.now }
{
    let (_, new) = body_new(body)?;
    Some(opened_kk(pair, body_count(body), new))
}

/// The record of the second of two keys.
fn body_second(state: &State, message: &Ksm, link: &LinkRec) -> Option<KeyRec>
    requires { IsCounted message.now.body }
    ensures { result ≡ body_second state.now message.now message.now.body link.now }
{
    match &message.body {
        KsmBody::Direct { .. } | KsmBody::Centre { .. } => None,
        KsmBody::Twin { second, ctp, .. } => {
            let count = count_behind(*ctp);
            Some(KeyRec {
                peer: message.originator,
                name: direct_name(link.peer, link.label, count),
                value: unwrap(link.pair, count, *second),
                status: KeyStatus::Held,
            })
        }
    }
}

/// What a key service message brings: the link of a new key-encrypting key, whose first count is
/// used, the key that is held, of two keys the first, and the second.
#[derive(Clone, Copy)]
pub(crate) struct Keys {
    pub taken: Option<LinkRec>,
    pub first: KeyRec,
    pub second: Option<KeyRec>,
}

/// What comes under a link. The key under which the message is closed, and a new key-encrypting key,
/// were opened for the lead.
pub(crate) fn keys_of(state: &State, message: &Ksm, link: &LinkRec, lead: &Lead) -> Keys
    requires counted { IsCounted message.now.body }
    requires code { lead.now.value ≡ body_code link.now.pair message.now.originator state.now.own message.now.body }
    requires opened { lead.now.opened ≡ body_opened link.now.pair message.now.body }
    ensures taken { result.taken ≡ body_taken message.now.originator link.now message.now.body }
    ensures first { result.first ≡ body_record state.now message.now message.now.body link.now }
    ensures second { result.second ≡ body_second state.now message.now message.now.body link.now }
    ensures range { IsCount (body_count message.now.body) }
{
    let count = body_count(&message.body);
    let taken = match (body_new(&message.body), lead.opened) {
        (Some((label, _)), Some(pair)) => Some(LinkRec {
            peer: message.originator,
            label,
            side: Side::Takes,
            pair,
            next: 2,
            ready: true,
        }),
        _ => None,
    };
    let value = match &message.body {
        KsmBody::Direct { .. } | KsmBody::Centre { .. } => lead.value,
        KsmBody::Twin { first, .. } => unwrap(link.pair, count, *first),
    };
    let first = KeyRec {
        peer: message.originator,
        name: body_name(state, &message.originator, &message.body, link).name,
        value,
        status: KeyStatus::Held,
    };
    let second = body_second(state, message, link);
    Keys {
        taken,
        first,
        second,
    }
}

/// The tests for a new key-encrypting key: its label is free, its pair is new, and it has room.
pub(crate) fn link_tests(state: &State, taken: &LinkRec) -> [(bool, Verdict); 3]
    ensures { result ≡ link_tests state.now (Some taken.now) }
{
    let (peer, label) = (&taken.peer, &taken.label);
    let free = !is_of_centre(label) && state.link(peer, label, Side::Takes).is_none();
    [
        (free, Verdict::LabelTaken),
        (!state.has_pair(taken.pair), Verdict::SameKey),
        (
            has_link_room(state, peer, label, Side::Takes),
            Verdict::LinksFull,
        ),
    ]
}
