// A response service message arrives: the key that was sent is live, or both are; or, where it names a
// key, the end of that key is done.
ghost use Rattle.std.specs.Prelude.{◌≡◌, ◌++◌, ◌∷◌, [], IfOk};
ghost use Rattle.party_state.specs.declared.edit.Edit.TheVariants.{PutKey, DropExchange};
ghost use Rattle.party_tables.specs.declared.key.KeyStatus.TheVariants.{Live};
ghost use Rattle.role_base.specs.Deciding.{decision_of, Decides};
ghost use Rattle.role_base.specs.Exchanges.{sent_to, twins_to, readied, new_link};
ghost use Rattle.bank_arrivals.specs.Rsm.{rsm, rsm_to, rsm_lead, rsm_lead_to, answer_to, answer_lead_to, is_named};

use crate::twin_response::{rsm_twins, twins_lead};
use csm_grammar::{Arrival, Rsm};
use party_state::{Decision, Edit, KeyRec, KeyStatus, Lead, State, law_found, law_found_in_range};
use role_base::{
    Sent, Twins, accept, answer_front, answer_verdict, early_refusal, ending_with, is_accept,
    joined, key_lead, list_of, new_link, not_answering, readied, refusal, sent_by, tests_pass,
    twins_by,
};
use std::alloc::Global;
use x_base::{Ident, KeyName, NoMemory};

fn live(alloc: Global, state: &State, message: &Rsm, sent: &Sent) -> Result<Vec<Edit>, NoMemory>
    ensures { IfOk result (λ edits. edits.items ≡ readied (new_link state.now message.now.originator sent.now.via)
        ++ PutKey (record sent.now.key { status = Live }) ∷ DropExchange message.now.originator ∷ []) }
{
    let link = new_link(state, &message.originator, &sent.via);
    let key = KeyRec {
        status: KeyStatus::Live,
        ..sent.key
    };
    let peer = message.originator;
    let rest = list_of(alloc, [Edit::PutKey(key), Edit::DropExchange { peer }])?;
    joined(readied(alloc, link)?, rest)
}

/// The response to a key that was sent, with the key under which its code is tested.
fn rsm_to(
    alloc: Global,
    state: &State,
    arrival: &Arrival,
    message: &Rsm,
    found: &Option<Sent>,
    lead: &Option<Lead>,
) -> Result<Decision, NoMemory>
    requires { lead.now ≡ rsm_lead_to state.now arrival.now message.now found.now }
    ensures { IfOk result (λ d. d ≡ decision_of state.now (rsm_to state.now arrival.now message.now found.now)) }
{
    let (receiver, originator) = (&message.receiver, &message.originator);
    let Some(sent) = found else {
        return Ok(not_answering(state, receiver, originator));
    };
    let Some(lead) = lead else {
        return Ok(early_refusal(&answer_front(state, receiver, originator, true)));
    };
    let verdict = answer_verdict(state, receiver, originator, true, lead.verified);
    if !is_accept(&verdict) {
        return Ok(refusal(verdict));
    }
    let edits = live(alloc, state, message, sent)?;
    accept(alloc, state, edits, None)
}

/// The two keys that were sent to the peer in one message, and the one key: at most one of them is
/// there.
fn unanswered(state: &State, peer: &Ident) -> (Option<Twins>, Option<Sent>)
    ensures { result ≡ (twins_to state.now peer.now, sent_to state.now peer.now) }
{
    match state.exchange(peer) {
        Some(exchange) => {
            let kind = &exchange.kind;
            (twins_by(state, peer, kind), sent_by(state, peer, kind))
        }
        None => (None, None),
    }
}

fn rsm_lead_to(state: &State, arrival: &Arrival, message: &Rsm, found: Option<Sent>) -> Option<Lead>
    ensures { result ≡ rsm_lead_to state.now arrival.now message.now found }
{
    let sent = found?;
    if tests_pass(&answer_front(state, &message.receiver, &message.originator, true)) {
        Some(key_lead(state, arrival, &sent.key))
    } else {
        None
    }
}

fn is_named(name: &KeyName, found: &Option<KeyRec>) -> bool
    ensures { result ≡ is_named name.now found.now }
{
    match found {
        Some(key) => *name == key.name,
        None => false,
    }
}

/// The response to the end of a key, with the key under which its code is tested.
fn answer_to(
    alloc: Global,
    state: &State,
    arrival: &Arrival,
    message: &Rsm,
    name: &KeyName,
    found: &Option<KeyRec>,
    lead: &Option<Lead>,
) -> Result<Decision, NoMemory>
    requires { lead.now ≡ answer_lead_to state.now arrival.now message.now name.now found.now }
    ensures { IfOk result (λ d. d ≡ decision_of state.now (answer_to state.now arrival.now message.now name.now found.now)) }
{
    let (receiver, originator) = (&message.receiver, &message.originator);
    let named = is_named(name, found);
    let Some(key) = found else {
        return Ok(not_answering(state, receiver, originator));
    };
    let Some(lead) = lead else {
        return Ok(early_refusal(&answer_front(state, receiver, originator, named)));
    };
    let verdict = answer_verdict(state, receiver, originator, named, lead.verified);
    if !is_accept(&verdict) {
        return Ok(refusal(verdict));
    }
    let (peer, status) = (message.originator, KeyStatus::Ended);
    let ended = KeyRec { status, ..*key };
    let edits = list_of(alloc, [Edit::PutKey(ended), Edit::DropExchange { peer }])?;
    accept(alloc, state, edits, None)
}

fn answer_lead_to(
    state: &State,
    arrival: &Arrival,
    message: &Rsm,
    name: &KeyName,
    found: Option<KeyRec>,
) -> Option<Lead>
    ensures { result ≡ answer_lead_to state.now arrival.now message.now name.now found }
{
    let named = is_named(name, &found);
    let key = found?;
    if tests_pass(&answer_front(state, &message.receiver, &message.originator, named)) {
        Some(key_lead(state, arrival, &key))
    } else {
        None
    }
}

/// What is decided of a response, with the key under which its code is tested. The only error is want of
/// memory.
pub fn rsm(
    alloc: Global,
    state: &State,
    arrival: &Arrival,
    message: &Rsm,
    lead: &Option<Lead>,
) -> Result<Decision, NoMemory>
    requires { lead.now ≡ rsm_lead state.now arrival.now message.now }
    ensures { Decides state.now (rsm state.now arrival.now message.now) result }
{
    // Tells that the links that stand are in their ranges.
    state.law_party();
    law_found();
    law_found_in_range();
    let Some(name) = &message.idd else {
        let (twins, sent) = unanswered(state, &message.originator);
        return match &twins {
            Some(twins) => rsm_twins(alloc, state, arrival, message, twins, lead),
            None => rsm_to(alloc, state, arrival, message, &sent, lead),
        };
    };
    let found = ending_with(state, &message.originator);
    answer_to(alloc, state, arrival, message, name, &found, lead)
}

/// The key under which the code of a response is tested. It takes no memory.
pub fn rsm_lead(state: &State, arrival: &Arrival, message: &Rsm) -> Option<Lead>
    ensures { result ≡ rsm_lead state.now arrival.now message.now }
{
    let Some(name) = &message.idd else {
        let (twins, sent) = unanswered(state, &message.originator);
        return match twins {
            Some(twins) => twins_lead(state, arrival, message, &twins),
            None => rsm_lead_to(state, arrival, message, sent),
        };
    };
    let found = ending_with(state, &message.originator);
    answer_lead_to(state, arrival, message, name, found)
}
