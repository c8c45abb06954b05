// An error service message arrives: what was sent is given up, and a distribution centre is asked
// again where the message is about a key of its.
ghost use Rattle.std.specs.Prelude.{◌≡◌, IfSome, IfOk};
ghost use Rattle.x_base.specs.Count.{IsCount};
ghost use Rattle.csm_grammar.specs.declared.message.Message.TheVariants as messages;
ghost use Rattle.csm_grammar.specs.declared.arrival.Arrival.{Arrival};
ghost use Rattle.role_base.specs.Deciding.{accepting, decision_of, Decides};
ghost use Rattle.role_base.specs.Texts.{lead_under};
ghost use Rattle.bank_arrivals.specs.AskingAgain.{retry_of, retry_in};
ghost use Rattle.bank_arrivals.specs.Esm.{subject_by, subject_with, subject_value, subject_name, error_row, error_of, error, esm_lead_of, esm_lead};

use crate::asking_again::{asked_again, retry_of};
use crate::error_edits::error_edits;
use crate::plain_esm::{is_plain, plain_esm};
use csm_grammar::{Arrival, Esm, law_arrived};
use csm_write::law_canon_short;
use party_state::{Decision, Kind, Lead, State, law_found, law_found_in_range};
use role_base::{
    Sent, Twins, accept, answer_front, answer_verdict, centre_label, direct_name, early_refusal,
    is_accept, lead_under, not_answering, refusal, sent_by, tests_pass, twins_by,
};
use std::alloc::Global;
use x_base::{Count, FullName, Ident, NoMemory};

/// What an error message speaks of: a key that was sent, two keys that were sent in one message, or a
/// key with a translation centre.
#[derive(Clone, Copy)]
pub enum ErrorSubject {
    SentKey(Sent),
    SentTwins(Twins),
    /// Its value, and the count at the centre.
    Translated(u64, Count),
}

fn subject_by(state: &State, peer: &Ident, kind: &Kind) -> Option<ErrorSubject>
    ensures { result ≡ subject_by state.now peer.now kind.now }
{
    match kind {
        Kind::KeySent { .. } => {
            let sent = sent_by(state, peer, kind)?;
            Some(ErrorSubject::SentKey(sent))
        }
        Kind::PairSent { .. } => {
            let twins = twins_by(state, peer, kind)?;
            Some(ErrorSubject::SentTwins(twins))
        }
        Kind::Translating { value, cta, .. } => Some(ErrorSubject::Translated(*value, *cta)),
        Kind::Asked { .. } | Kind::Ending { .. } => None,
    }
}

/// What the exchange with the peer is about, where an error message can speak of it.
fn subject_with(state: &State, peer: &Ident) -> Option<ErrorSubject>
    ensures { result ≡ subject_with state.now peer.now }
{
    let exchange = state.exchange(peer)?;
    subject_by(state, peer, &exchange.kind)
}

fn subject_value(subject: &ErrorSubject) -> u64
    ensures { result ≡ subject_value subject.now }
{
    match subject {
        ErrorSubject::SentKey(sent) => sent.key.value,
        ErrorSubject::SentTwins(twins) => twins.value(),
        ErrorSubject::Translated(value, _) => *value,
    }
}

/// The full name of its key, of two keys that of the first.
fn subject_name(state: &State, peer: &Ident, subject: &ErrorSubject) -> FullName
    ensures { result ≡ subject_name state.now peer.now subject.now }
{
    match subject {
        ErrorSubject::SentKey(sent) => sent.key.full_name(&state.own()),
        ErrorSubject::SentTwins(twins) => twins.first.full_name(&state.own()),
        ErrorSubject::Translated(_, cta) => FullName {
            name: direct_name(state.own(), centre_label(), *cta),
            recipient: *peer,
        },
    }
}

fn subject_lead(state: &State, arrival: &Arrival, peer: &Ident, subject: &ErrorSubject) -> Lead
    ensures { result ≡ lead_under arrival.now (subject_name state.now peer.now subject.now) (subject_value subject.now) }
{
    let under = subject_name(state, peer, subject);
    lead_under(arrival, under, subject_value(subject))
}

/// What was sent is given up, and the centre that gave it is asked again.
fn given_up(
    alloc: Global,
    state: &State,
    message: &Esm,
    subject: &ErrorSubject,
) -> Result<Decision, NoMemory>
    ensures { (a : Arrival) → let row = error_row state.now a message.now subject.now (retry_of state.now subject.now message.now.ctr) in
        IfOk result (λ d. d ≡ accepting state.now row.edits row.reply) }
{
    let again = retry_of(state, subject, message.ctr);
    let (asked, written) = asked_again(alloc, state, message, subject_value(subject), &again)?;
    let edits = error_edits(alloc, state, message, subject, asked)?;
    accept(alloc, state, edits, written)
}

/// What is decided of one with an authentication code, with the key under which the code is tested.
fn esm_about(
    alloc: Global,
    state: &State,
    arrival: &Arrival,
    message: &Esm,
    found: &Option<ErrorSubject>,
    lead: &Option<Lead>,
) -> Result<Decision, NoMemory>
    requires { lead.now ≡ esm_lead_of state.now arrival.now message.now found.now }
    ensures { IfOk result (λ d. d ≡ decision_of state.now (error_of state.now arrival.now message.now found.now (retry_in state.now found.now message.now.ctr))) }
{
    let (receiver, originator) = (&message.receiver, &message.originator);
    let Some(subject) = found else {
        return Ok(not_answering(state, receiver, originator));
    };
    let Some(lead) = lead else {
        return Ok(early_refusal(&answer_front(state, receiver, originator, true)));
    };
    let verdict = answer_verdict(state, receiver, originator, true, lead.verified);
    if !is_accept(&verdict) {
        return Ok(refusal(verdict));
    }
    given_up(alloc, state, message, subject)
}

/// The count that is named.
fn named_count(message: &Esm) -> Option<u64>
    ensures { IfSome message.now.ctr IsCount }
{
    let count = message.ctr?;
    Some(count.value())
}

/// What is decided of the error message that an arrival has, with the key under which its code is
/// tested.
///
/// The change has the edits that make a difference. The only error is want of memory.
pub fn esm(
    alloc: Global,
    state: &State,
    arrival: &Arrival,
    message: &Esm,
    lead: &Option<Lead>,
) -> Result<Decision, NoMemory>
    requires message { arrival.now.parsed.message ≡ messages.Esm message.now }
    requires lead { lead.now ≡ esm_lead state.now arrival.now message.now }
    ensures { Decides state.now (error state.now arrival.now message.now) result }
{
    // Tells that what stands is in its range.
    state.law_party();
    law_found();
    law_found_in_range();
    // Tells that the values of the message are, and that the text that asks again is short.
    law_arrived();
    law_canon_short();
    named_count(message);
    if is_plain(arrival) {
        return plain_esm(alloc, state, arrival, message);
    }
    let found = subject_with(state, &message.originator);
    esm_about(alloc, state, arrival, message, &found, lead)
}

fn esm_lead_of(
    state: &State,
    arrival: &Arrival,
    message: &Esm,
    found: &Option<ErrorSubject>,
) -> Option<Lead>
    ensures { result ≡ esm_lead_of state.now arrival.now message.now found.now }
{
    let Some(subject) = found else {
        return None;
    };
    let peer = &message.originator;
    if tests_pass(&answer_front(state, &message.receiver, peer, true)) {
        Some(subject_lead(state, arrival, peer, subject))
    } else {
        None
    }
}

/// The key under which the code of an error message is tested. It takes no memory.
pub fn esm_lead(state: &State, arrival: &Arrival, message: &Esm) -> Option<Lead>
    ensures { result ≡ esm_lead state.now arrival.now message.now }
{
    if is_plain(arrival) {
        return None;
    }
    let found = subject_with(state, &message.originator);
    esm_lead_of(state, arrival, message, &found)
}
