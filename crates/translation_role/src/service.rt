// A data key arrives: it goes back to its originator, encrypted for the ultimate recipient.
ghost use Rattle.std.specs.Prelude.{◌≡◌, ◌++◌, ◌∷◌, true, Some, IfOk};
ghost use Rattle.x_base.specs.declared.verdict.Verdict.TheVariants.{BadMac};
ghost use Rattle.party_state.specs.Verdicts.{verdict_of};
ghost use Rattle.role_base.specs.Replies.{IsWritten};
ghost use Rattle.role_base.specs.Texts.{lead_under};
ghost use Rattle.role_base.specs.Deciding.{accepting, Decides};
ghost use Rattle.translation_role.specs.Service.{rfs_value, rfs_under, rfs_answer, rfs_reply, rfs_edits, rfs_front, rfs_rest, rfs_counts, rfs, rfs_lead};

use csm_grammar::{Arrival, Message, Rfs, Rtr};
use party_state::{Decision, Edit, Lead, LinkRec, State, law_accept};
use role_base::{
    ErrorCounts, Written, accept, centre_label, count_tests, direct_name, early_refusal,
    error_answer, has_count, is_accept, lead_under, link_behind, link_with, list_of, no_extras,
    refusal, request_front, tests_pass, verdict_after, verdict_of,
};
use std::alloc::Global;
use x_base::{Count, FullName, NoMemory, Side, Verdict};
use x_seal::{seal, unwrap};

/// The tests before the code's.
fn rfs_front(state: &State, message: &Rfs, linked: bool) -> [(bool, Verdict); 4]
    ensures { result ≡ rfs_front state.now message.now linked }
{
    let originator = &message.originator;
    let served = message.ultimate != *originator;
    let [for_me, known, class] = request_front(state, &message.receiver, originator, served);
    [for_me, known, class, (linked, Verdict::UnknownKk)]
}

/// The tests behind the code's: the count that came, and the one that is to be used.
fn rfs_rest(message: &Rfs, from: &LinkRec, to: &LinkRec) -> [(bool, Verdict); 3]
    ensures { result ≡ rfs_rest message.now from.now to.now }
{
    let [low, spent] = count_tests(from, message.cta);
    [low, spent, (has_count(to), Verdict::CountSpent)]
}

/// The verdict, the code being tested.
fn rfs_verdict(
    state: &State,
    message: &Rfs,
    from: &LinkRec,
    to: &LinkRec,
    verified: bool,
) -> Verdict
    ensures { result ≡ verdict_of (rfs_front state.now message.now true ++ (verified, BadMac) ∷ rfs_rest message.now from.now to.now) }
{
    let front = rfs_front(state, message, true);
    let [low, spent, left] = rfs_rest(message, from, to);
    verdict_after(&front, &[(verified, Verdict::BadMac), low, spent, left])
}

/// The full name of the key that came.
fn rfs_under(state: &State, message: &Rfs) -> FullName
    ensures { result ≡ rfs_under state.now message.now }
{
    FullName {
        name: direct_name(message.originator, centre_label(), message.cta),
        recipient: state.own(),
    }
}

/// The key that came, and whether the code is made under it.
fn carried_lead(state: &State, arrival: &Arrival, message: &Rfs, from: &LinkRec) -> Lead
    ensures { result ≡ lead_under arrival.now (rfs_under state.now message.now) (rfs_value message.now from.now) }
{
    let value = unwrap(from.pair, message.cta, message.kd);
    lead_under(arrival, rfs_under(state, message), value)
}

fn rfs_answer(
    state: &State,
    message: &Rfs,
    from: &LinkRec,
    to: &LinkRec,
    ctb: Count,
    value: u64,
) -> Rtr
    requires ctb { ctb ≡ to.now.next }
    requires value { value ≡ rfs_value message.now from.now }
    ensures { result ≡ rfs_answer state.now message.now from.now to.now }
{
    let (originator, ultimate) = (&message.originator, &message.ultimate);
    Rtr {
        receiver: *originator,
        originator: state.own(),
        ultimate: *ultimate,
        kd: None,
        kdu: seal(to.pair, originator, ultimate, ctb, value),
        ctb,
        extras: no_extras(),
    }
}

/// The answer, closed under the key that came.
fn rfs_text(
    alloc: Global,
    state: &State,
    arrival: &Arrival,
    message: &Rfs,
    from: &LinkRec,
    to: &LinkRec,
    ctb: Count,
    lead: &Lead,
) -> Result<Written, NoMemory>
    requires ctb { ctb ≡ to.now.next }
    requires lead { lead.now ≡ lead_under arrival.now (rfs_under state.now message.now) (rfs_value message.now from.now) }
    ensures { IfOk result (λ w. IsWritten w (rfs_reply state.now message.now from.now to.now)) }
{
    let answer = rfs_answer(state, message, from, to, ctb, lead.value);
    Written::coded(alloc, Message::Rtr(answer), lead.under, lead.value)
}

/// The count that came is used, and one of the ultimate recipient's link.
fn rfs_edits(
    alloc: Global,
    message: &Rfs,
    from: &LinkRec,
    to: &LinkRec,
    ctb: Count,
) -> Result<Vec<Edit>, NoMemory>
    requires { ctb ≡ to.now.next }
    ensures { IfOk result (λ edits. edits.items ≡ rfs_edits message.now from.now to.now) }
{
    let taken = link_behind(from, message.cta);
    let sent = link_behind(to, ctb);
    list_of(alloc, [Edit::PutLink(taken), Edit::PutLink(sent)])
}

/// The key goes back.
fn rfs_accepted(
    alloc: Global,
    state: &State,
    arrival: &Arrival,
    message: &Rfs,
    from: &LinkRec,
    to: &LinkRec,
    ctb: Count,
    lead: &Lead,
) -> Result<Decision, NoMemory>
    requires ctb { ctb ≡ to.now.next }
    requires lead { lead.now ≡ lead_under arrival.now (rfs_under state.now message.now) (rfs_value message.now from.now) }
    ensures { IfOk result (λ d. d ≡ accepting state.now (rfs_edits message.now from.now to.now) (Some (rfs_reply state.now message.now from.now to.now))) }
{
    let written = rfs_text(alloc, state, arrival, message, from, to, ctb, lead)?;
    let edits = rfs_edits(alloc, message, from, to, ctb)?;
    accept(alloc, state, edits, Some(written))
}

/// A refusal that is answered names the count that came.
fn rfs_counts(message: &Rfs) -> ErrorCounts
    ensures { result ≡ rfs_counts message.now }
{
    ErrorCounts {
        ctp: None,
        cta: Some(message.cta),
        ctb: None,
    }
}

/// Decides of a request for service, with the key under which its code is tested.
#[tactic(auto, using(crate::proofs::Translated::rfs_tells_count, role_base::proofs::Kept::is_refused))]
pub(crate) fn rfs(
    alloc: Global,
    state: &State,
    arrival: &Arrival,
    message: &Rfs,
    lead: &Option<Lead>,
) -> Result<Decision, NoMemory>
    requires { lead.now ≡ rfs_lead state.now arrival.now message.now }
    ensures { Decides state.now (rfs state.now arrival.now message.now) result }
{
    // Tells what an accepted verdict says of the tests.
    law_accept();
    // The value tells that it is a count.
    message.cta.value();
    let label = centre_label();
    let Some(from) = link_with(state, &message.originator, &label, Side::Takes) else {
        return Ok(refusal(verdict_of(&rfs_front(state, message, false))));
    };
    let Some(to) = link_with(state, &message.ultimate, &label, Side::Sends) else {
        return Ok(refusal(verdict_of(&rfs_front(state, message, false))));
    };
    let Some(lead) = lead else {
        return Ok(early_refusal(&rfs_front(state, message, true)));
    };
    let verdict = rfs_verdict(state, message, &from, &to, lead.verified);
    if !is_accept(&verdict) {
        let counts = rfs_counts(message);
        return error_answer(alloc, state, message.originator, counts, verdict, lead);
    }
    match Count::of(to.next) {
        Some(ctb) => rfs_accepted(alloc, state, arrival, message, &from, &to, ctb, lead),
        None => unreachable!(),
    }
}

/// The key under which its code is tested.
pub(crate) fn rfs_lead(state: &State, arrival: &Arrival, message: &Rfs) -> Option<Lead>
    ensures { result ≡ rfs_lead state.now arrival.now message.now }
{
    let label = centre_label();
    let from = link_with(state, &message.originator, &label, Side::Takes)?;
    let _to = link_with(state, &message.ultimate, &label, Side::Sends)?;
    if tests_pass(&rfs_front(state, message, true)) {
        Some(carried_lead(state, arrival, message, &from))
    } else {
        None
    }
}
