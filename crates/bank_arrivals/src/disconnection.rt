// A disconnect service message arrives: the key ends, and a response that names it goes back.
ghost use Rattle.std.specs.Prelude.{◌≡◌, ◌++◌, ◌∷◌, [], true, IfOk, Ok};
ghost use Rattle.x_base.specs.declared.verdict.Verdict.TheVariants.{BadMac};
ghost use Rattle.party_tables.specs.declared.exchange.Kind.TheVariants as kind;
ghost use Rattle.party_tables.specs.Keys.{same_name};
ghost use Rattle.party_tables.specs.Names.{full_name, name_behind};
ghost use Rattle.party_state.specs.declared.edit.Edit.TheVariants.{DropExchange};
ghost use Rattle.party_state.specs.Rows.Reply.{Coded};
ghost use Rattle.party_state.specs.Verdicts.{verdict_of};
ghost use Rattle.role_base.specs.Replies.{IsWritten};
ghost use Rattle.party_state.specs.State.{exchange_with};
ghost use Rattle.role_base.specs.Deciding.{Decides};
ghost use Rattle.role_base.specs.Exchanges.{ended};
ghost use Rattle.bank_arrivals.specs.Dsm.{named_by, dsm_front, left_by, left_in, disconnected, dsm_response, dsm, dsm_lead};

use csm_grammar::{Arrival, Dsm, Message, Rsm};
use party_state::{Decision, Edit, KeyRec, KeyStatus, Kind, Lead, State, law_found, name_behind};
use role_base::{
    Written, accept, dropped, early_refusal, ended, is_accept, is_for, joined, key_lead, list_of,
    new_link, no_extras, record_behind, record_of, refusal, tests_pass, verdict_after, verdict_of,
};
use std::alloc::Global;
use x_base::{Ident, KeyName, NoMemory, Verdict};

/// The key that ends, and the key whose code closes the message.
#[derive(Clone, Copy)]
pub struct NamedKey {
    pub key: KeyRec,
    pub by: KeyRec,
}

/// The keys that a message names: the second is that of IDA, or of IDD where IDA is absent.
fn named_by(state: &State, message: &Dsm) -> Option<NamedKey>
    ensures { result ≡ named_by state.now message.now }
{
    let key = record_of(state, &message.originator, &message.idd)?;
    let by = match &message.ida {
        None => key,
        Some(ida) => record_of(state, &message.originator, ida)?,
    };
    Some(NamedKey { key, by })
}

/// The tests before the code's.
fn dsm_front(state: &State, message: &Dsm, stands: bool) -> [(bool, Verdict); 2]
    ensures { result ≡ dsm_front state.now message.now stands }
{
    [
        (
            is_for(state, &message.receiver, &message.originator),
            Verdict::NotForMe,
        ),
        (stands, Verdict::UnknownKey),
    ]
}

fn dsm_verdict(state: &State, message: &Dsm, verified: bool) -> Verdict
    ensures { result ≡ verdict_of (dsm_front state.now message.now true ++ (verified, BadMac) ∷ []) }
{
    verdict_after(
        &dsm_front(state, message, true),
        &[(verified, Verdict::BadMac)],
    )
}

fn dsm_response(state: &State, key: &KeyRec) -> Message
    ensures { result ≡ dsm_response state.now key.now }
{
    Message::Rsm(Rsm {
        receiver: key.peer,
        originator: state.own(),
        idd: Some(key.name),
        extras: no_extras(),
    })
}

/// Whether it is the name of the key behind the one that was sent.
#[tactic(auto, using(crate::proofs::Disconnections::not_behind))]
fn is_behind(name: &KeyName, sent: &KeyName) -> bool
    ensures { result ≡ same_name name.now (name_behind sent.now) }
{
    // The value tells that it is a count.
    name.count.value();
    match name_behind(sent) {
        Some(behind) => *name == behind,
        None => false,
    }
}

/// The edits before and behind, where there is memory for both.
fn around(
    before: Result<Vec<Edit>, NoMemory>,
    behind: Result<Vec<Edit>, NoMemory>,
) -> Result<(Vec<Edit>, Vec<Edit>), NoMemory>
    ensures before { IfOk result (λ edits. before ≡ Ok edits.0) }
    ensures behind { IfOk result (λ edits. behind ≡ Ok edits.1) }
{
    let before = before?;
    Ok((before, behind?))
}

/// The other key of two ends, and the exchange goes.
fn other_ended(alloc: Global, other: Option<KeyRec>, peer: Ident) -> Result<Vec<Edit>, NoMemory>
    ensures { IfOk result (λ edits. edits.items ≡ ended other ++ DropExchange peer ∷ []) }
{
    let gone = list_of(alloc, [Edit::DropExchange { peer }])?;
    joined(ended(alloc, other)?, gone)
}

/// The edits for an exchange about two keys that names this one: the other ends too, by name before
/// it or behind it.
fn left_of_two(
    alloc: Global,
    state: &State,
    peer: Ident,
    name: &KeyName,
    sent: &KeyName,
) -> Result<(Vec<Edit>, Vec<Edit>), NoMemory>
    ensures { IfOk result (λ edits. (edits.0.items, edits.1.items) ≡ left_by state.now peer name.now (kind.PairSent sent.now)) }
{
    if *name == *sent {
        let behind = other_ended(alloc, record_behind(state, &peer, sent), peer)?;
        return Ok((Vec::new(alloc), behind));
    }
    if is_behind(name, sent) {
        return around(
            ended(alloc, record_of(state, &peer, sent)),
            list_of(alloc, [Edit::DropExchange { peer }]),
        );
    }
    Ok((Vec::new(alloc), Vec::new(alloc)))
}

/// The edits before and behind that of the key, for an exchange that names it.
fn left_by(
    alloc: Global,
    state: &State,
    peer: Ident,
    name: &KeyName,
    kind: &Kind,
) -> Result<(Vec<Edit>, Vec<Edit>), NoMemory>
    ensures { IfOk result (λ edits. (edits.0.items, edits.1.items) ≡ left_by state.now peer name.now kind.now) }
{
    match kind {
        Kind::KeySent { name: sent, via } if *name == *sent => around(
            dropped(alloc, new_link(state, &peer, via)),
            list_of(alloc, [Edit::DropExchange { peer }]),
        ),
        Kind::Ending { name: ending } if *name == *ending => {
            let behind = list_of(alloc, [Edit::DropExchange { peer }])?;
            Ok((Vec::new(alloc), behind))
        }
        Kind::PairSent { name: sent } => left_of_two(alloc, state, peer, name, sent),
        _ => Ok((Vec::new(alloc), Vec::new(alloc))),
    }
}

fn left_in(
    alloc: Global,
    state: &State,
    peer: Ident,
    name: &KeyName,
) -> Result<(Vec<Edit>, Vec<Edit>), NoMemory>
    ensures { IfOk result (λ edits. (edits.0.items, edits.1.items) ≡ left_in state.now peer name.now (exchange_with peer state.now)) }
{
    match state.exchange(&peer) {
        Some(exchange) => left_by(alloc, state, peer, name, &exchange.kind),
        None => Ok((Vec::new(alloc), Vec::new(alloc))),
    }
}

/// The key ends, unless it ended already.
fn disconnected(
    alloc: Global,
    state: &State,
    peer: Ident,
    key: &KeyRec,
) -> Result<Vec<Edit>, NoMemory>
    ensures { IfOk result (λ edits. edits.items ≡ disconnected state.now peer key.now) }
{
    if key.status == KeyStatus::Ended {
        return Ok(Vec::new(alloc));
    }
    let (before, behind) = left_in(alloc, state, peer, &key.name)?;
    let status = KeyStatus::Ended;
    let ended = list_of(alloc, [Edit::PutKey(KeyRec { status, ..*key })])?;
    joined(before, joined(ended, behind)?)
}

/// The response, under the key that ends.
fn dsm_reply(alloc: Global, state: &State, key: &KeyRec) -> Result<Written, NoMemory>
    ensures { IfOk result (λ w. IsWritten w (Coded (dsm_response state.now key.now) (full_name state.now.own key.now) key.now.value)) }
{
    let under = key.full_name(&state.own());
    Written::coded(alloc, dsm_response(state, key), under, key.value)
}

/// What is decided of a disconnection, with the key under which its code is tested. The only error is want of
/// memory.
pub fn dsm(
    alloc: Global,
    state: &State,
    arrival: &Arrival,
    message: &Dsm,
    lead: &Option<Lead>,
) -> Result<Decision, NoMemory>
    requires { lead.now ≡ dsm_lead state.now arrival.now message.now }
    ensures { Decides state.now (dsm state.now arrival.now message.now) result }
{
    // Tells that what is found has the key under which it was looked for.
    law_found();
    let Some(named) = named_by(state, message) else {
        return Ok(refusal(verdict_of(&dsm_front(state, message, false))));
    };
    let Some(lead) = lead else {
        return Ok(early_refusal(&dsm_front(state, message, true)));
    };
    let verdict = dsm_verdict(state, message, lead.verified);
    if !is_accept(&verdict) {
        return Ok(refusal(verdict));
    }
    let edits = disconnected(alloc, state, message.originator, &named.key)?;
    let written = dsm_reply(alloc, state, &named.key)?;
    accept(alloc, state, edits, Some(written))
}

/// The key under which the code of a disconnection is tested. It takes no memory.
pub fn dsm_lead(state: &State, arrival: &Arrival, message: &Dsm) -> Option<Lead>
    ensures { result ≡ dsm_lead state.now arrival.now message.now }
{
    let named = named_by(state, message)?;
    if tests_pass(&dsm_front(state, message, true)) {
        Some(key_lead(state, arrival, &named.by))
    } else {
        None
    }
}
