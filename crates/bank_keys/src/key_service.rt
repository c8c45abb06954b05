// A key service message arrives: its key is held, or its two keys are, with a new key-encrypting key
// where it brings one, and a response goes back under the key.
ghost use Rattle.std.specs.Prelude.{◌≡◌, ◌+◌, ◌++◌, ◌∷◌, Some, IfOk};
ghost use Rattle.x_base.specs.declared.verdict.Verdict.TheVariants.{BadMac, KeysFull};
ghost use Rattle.party_state.specs.declared.edit.Edit.TheVariants.{PutLink, PutKey};
ghost use Rattle.party_tables.specs.Keys.{record_key};
ghost use Rattle.party_state.specs.Rows.Reply.{Coded};
ghost use Rattle.party_state.specs.Verdicts.{verdict_of};
ghost use Rattle.role_base.specs.Conditions.{count_tests};
ghost use Rattle.role_base.specs.Deciding.{Decides};
ghost use Rattle.role_base.specs.Replies.{IsWritten};
ghost use Rattle.bank_keys.specs.Ksm.{body_count, body_next, second_edits, have_room, body_front, response, link_edits, link_tests, key_arrives, key_lead, IsCounted, body_opened, body_code};

use crate::bodies::{
    Keys, body_count, body_counts, body_link, body_name, body_next, body_opened, keys_of,
    link_tests,
};
use csm_grammar::{Arrival, Ksm, KsmBody, Message, Rsm};
use party_state::{Decision, Edit, KeyRec, Lead, LinkRec, RecordKey, State, law_accept};
use role_base::{
    Written, accept, body_issuer, count_behind, count_tests, early_refusal, error_answer,
    first_count, has_key_room, has_room_for_two, is_accept, is_for, lead_under, list_of, no_extras,
    verdict_of,
};
use std::alloc::Global;
use x_base::{Ident, NoMemory, Verdict};
use x_mac::Pair;
use x_seal::{unseal, unwrap};

/// The tests before the code's.
fn body_front(state: &State, message: &Ksm, found: &Option<LinkRec>) -> [(bool, Verdict); 3]
    ensures { result ≡ body_front state.now message.now message.now.body found.now }
{
    [
        (
            is_for(state, &message.receiver, &message.originator),
            Verdict::NotForMe,
        ),
        (
            state.knows(&body_issuer(&message.originator, &message.body)),
            Verdict::UnknownPeer,
        ),
        (found.is_some(), Verdict::UnknownKk),
    ]
}

/// Whether the keys that come have room.
fn have_room(state: &State, first: &KeyRec, second: &Option<KeyRec>) -> bool
    ensures { result ≡ have_room state.now (record_key first.now) second.now }
{
    match second {
        None => has_key_room(state, &first.peer, &first.name),
        Some(second) => has_room_for_two(state, &key_of(first), &key_of(second)),
    }
}

fn key_of(key: &KeyRec) -> RecordKey
    ensures { result ≡ record_key key.now }
{
    RecordKey {
        peer: key.peer,
        name: key.name,
    }
}

/// The keys are held, and a new key-encrypting key is taken.
fn held(alloc: Global, message: &Ksm, link: &LinkRec, keys: Keys) -> Result<Vec<Edit>, NoMemory>
    ensures { IfOk result (λ edits. edits.items ≡
        PutLink (record link.now { next = body_next message.now.body }) ∷ (link_edits keys.taken ++ PutKey keys.first ∷ second_edits keys.second)) }
{
    let used = Edit::PutLink(LinkRec {
        next: body_next(&message.body),
        ..*link
    });
    let first = Edit::PutKey(keys.first);
    match (keys.taken, keys.second) {
        (None, None) => list_of(alloc, [used, first]),
        (None, Some(second)) => list_of(alloc, [used, first, Edit::PutKey(second)]),
        (Some(taken), None) => list_of(alloc, [used, Edit::PutLink(taken), first]),
        (Some(taken), Some(second)) => list_of(
            alloc,
            [used, Edit::PutLink(taken), first, Edit::PutKey(second)],
        ),
    }
}

/// The response, closed under the key that came.
fn response_text(
    alloc: Global,
    state: &State,
    message: &Ksm,
    lead: &Lead,
) -> Result<Written, NoMemory>
    ensures { IfOk result (λ w. IsWritten w (Coded (response state.now message.now.originator) lead.now.under lead.now.value)) }
{
    let response = Message::Rsm(Rsm {
        receiver: message.originator,
        originator: state.own(),
        idd: None,
        extras: no_extras(),
    });
    Written::coded(alloc, response, lead.under, lead.value)
}

/// Decides of a key service message, with the key under which its code is tested.
///
/// The change has the edits that make a difference. The only error is want of memory.
#[tactic(auto, using(crate::proofs::Counts::key_tells_count))]
pub fn ksm(
    alloc: Global,
    state: &State,
    arrival: &Arrival,
    message: &Ksm,
    lead: &Option<Lead>,
) -> Result<Decision, NoMemory>
    requires { lead.now ≡ key_lead state.now arrival.now message.now }
    ensures { Decides state.now (key_arrives state.now arrival.now message.now) result }
{
    // Tells what an accepted verdict says of the tests.
    law_accept();
    let found = body_link(state, &message.originator, &message.body);
    // Where there is a lead, the tests before the code's hold.
    let (Some(link), Some(lead)) = (&found, lead) else {
        return Ok(early_refusal(&body_front(state, message, &found)));
    };
    let keys = keys_of(state, message, link, lead);
    let code = (lead.verified, Verdict::BadMac);
    let [low, spent] = count_tests(link, body_count(&message.body));
    let room = have_room(state, &keys.first, &keys.second);
    let room = (room, Verdict::KeysFull);
    let verdict = match &keys.taken {
        None => verdict_of(&[code, low, spent, room]),
        Some(taken) => {
            let [free, other, links] = link_tests(state, taken);
            verdict_of(&[code, low, spent, free, other, links, room])
        }
    };
    if !is_accept(&verdict) {
        let counts = body_counts(&message.body);
        return error_answer(alloc, state, message.originator, counts, verdict, lead);
    }
    let edits = held(alloc, message, link, keys)?;
    let written = response_text(alloc, state, message, lead)?;
    accept(alloc, state, edits, Some(written))
}

/// The key that comes under this pair, or the exclusive-or of two; a new key-encrypting key is opened already.
fn body_code(
    state: &State,
    originator: &Ident,
    body: &KsmBody,
    pair: Pair,
    opened: Option<Pair>,
) -> u64
    requires counted { IsCounted body.now }
    requires opened { opened ≡ body_opened pair body.now }
    ensures { result ≡ body_code pair originator.now state.now.own body.now }
{
    match body {
        KsmBody::Direct { kd, ctp, .. } => match opened {
            None => unwrap(pair, *ctp, *kd),
            Some(new) => unwrap(new, first_count(), *kd),
        },
        KsmBody::Centre { kdu, ctb, .. } => unseal(pair, originator, &state.own(), *ctb, *kdu),
        KsmBody::Twin {
            first,
            second,
            ctp,
            ..
        } => {
            let second = unwrap(pair, count_behind(*ctp), *second);
            unwrap(pair, *ctp, *first) ^ second
        }
    }
}

/// The key under which the code of a key service message is tested: the one that it brings, or the
/// exclusive-or of two, under the name of the first; with a new key-encrypting key, opened. There is none where the message is refused
/// before its code is looked at.
pub fn ksm_lead(state: &State, arrival: &Arrival, message: &Ksm) -> Option<Lead>
    ensures { result ≡ key_lead state.now arrival.now message.now }
{
    let (originator, body) = (&message.originator, &message.body);
    let link = body_link(state, originator, body)?;
    let issuer = body_issuer(originator, body);
    if !is_for(state, &message.receiver, originator) || !state.knows(&issuer) {
        return None;
    }
    let under = body_name(state, originator, body, &link);
    let opened = body_opened(link.pair, body);
    let value = body_code(state, originator, body, link.pair, opened);
    Some(Lead {
        opened,
        ..lead_under(arrival, under, value)
    })
}
