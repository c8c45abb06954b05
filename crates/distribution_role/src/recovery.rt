// A request that comes again, with the count that the ultimate recipient expects.
ghost use Rattle.std.specs.Prelude.{◌≡◌, ◌++◌, ◌∷◌, ◌&&◌, [], true};
ghost use Rattle.x_base.specs.declared.verdict.Verdict.TheVariants.{BadMac, CountSpent};
ghost use Rattle.party_tables.specs.Ranges.{IsNextCount};
ghost use Rattle.party_state.specs.State.{answer_with};
ghost use Rattle.role_base.specs.Conditions.{has_count};
ghost use Rattle.role_base.specs.Texts.{lead_under};
ghost use Rattle.role_base.specs.Deciding.{Decides};
ghost use Rattle.distribution_role.specs.Answering.{answer_under};
ghost use Rattle.distribution_role.specs.Recovery.{ers_front, at_least, ers, ers_lead};

use crate::answering::{answer, answer_under};
use csm_grammar::{Arrival, Ers};
use party_state::{Answer, AnswerKey, Decision, Lead, LinkRec, State, law_accept};
use role_base::{
    centre_label, early_refusal, has_count, lead_under, link_with, refusal, request_front,
    tests_pass, verdict_of,
};
use std::alloc::Global;
use x_base::{Count, NoMemory, Side, Verdict};

/// The tests before the code's.
fn ers_front(state: &State, message: &Ers, stands: bool, linked: bool) -> [(bool, Verdict); 5]
    ensures { result ≡ ers_front state.now message.now stands linked }
{
    let originator = &message.originator;
    let served = message.ultimate != *originator;
    let [for_me, known, class] = request_front(state, &message.receiver, originator, served);
    [
        for_me,
        known,
        class,
        (stands, Verdict::NoExchange),
        (linked, Verdict::UnknownKk),
    ]
}

/// The tests, the code being tested.
fn ers_tests(
    state: &State,
    message: &Ers,
    verified: bool,
    from: &LinkRec,
    to: &LinkRec,
) -> [(bool, Verdict); 7]
    ensures { result ≡ ers_front state.now message.now true true ++ (verified, BadMac) ∷ (has_count from.now && has_count to.now, CountSpent) ∷ [] }
{
    let [for_me, known, class, stands, linked] = ers_front(state, message, true, true);
    let left = has_count(from) && has_count(to);
    [
        for_me,
        known,
        class,
        stands,
        linked,
        (verified, Verdict::BadMac),
        (left, Verdict::CountSpent),
    ]
}

/// The link, whose next count doesn't go back behind the expected one.
fn at_least(link: &LinkRec, ctr: Count) -> LinkRec
    ensures raised { result ≡ at_least link.now ctr }
    ensures range { IsNextCount link.now.next → IsNextCount result.next }
    ensures left { has_count link.now ≡ true → has_count result ≡ true }
{
    LinkRec {
        next: link.next.max(ctr.value()),
        ..*link
    }
}

/// The answer that was sent last to the originator, for that ultimate recipient.
fn kept_answer(state: &State, message: &Ers) -> Option<Answer>
    ensures { result ≡ answer_with (record { requester = message.now.originator; ultimate = message.now.ultimate }) state.now }
{
    state
        .answer(&message.originator, &message.ultimate)
        .copied()
}

/// The key of an answer, and whether the code is made under it.
fn answer_lead(state: &State, arrival: &Arrival, message: &Ers, kept: &Answer) -> Lead
    ensures { result ≡ lead_under arrival.now (answer_under state.now message.now.originator kept.now.cta) kept.now.value }
{
    let under = answer_under(state, message.originator, kept.cta);
    lead_under(arrival, under, kept.value)
}

/// Decides of a request that comes again, with the key under which its code is tested.
#[tactic(auto, using(role_base::proofs::Kept::is_refused))]
pub(crate) fn ers(
    alloc: Global,
    state: &State,
    arrival: &Arrival,
    message: &Ers,
    lead: &Option<Lead>,
    moment: u64,
) -> Result<Decision, NoMemory>
    requires { lead.now ≡ ers_lead state.now arrival.now message.now }
    ensures { Decides state.now (ers state.now arrival.now message.now moment) result }
{
    // Tells what an accepted verdict says of the tests.
    law_accept();
    // The value tells that it is a count.
    message.ctr.value();
    let (requester, ultimate, label) = (message.originator, message.ultimate, centre_label());
    if kept_answer(state, message).is_none() {
        return Ok(refusal(verdict_of(&ers_front(state, message, false, false))));
    }
    let Some(from) = link_with(state, &requester, &label, Side::Sends) else {
        return Ok(refusal(verdict_of(&ers_front(state, message, true, false))));
    };
    let Some(to) = link_with(state, &ultimate, &label, Side::Sends) else {
        return Ok(refusal(verdict_of(&ers_front(state, message, true, false))));
    };
    let Some(lead) = lead else {
        return Ok(early_refusal(&ers_front(state, message, true, true)));
    };
    let tests = ers_tests(state, message, lead.verified, &from, &to);
    let asked = AnswerKey {
        requester,
        ultimate,
    };
    let raised = at_least(&to, message.ctr);
    answer(alloc, state, &tests, &asked, &from, &raised, moment)
}

/// The key under which its code is tested.
pub(crate) fn ers_lead(state: &State, arrival: &Arrival, message: &Ers) -> Option<Lead>
    ensures { result ≡ ers_lead state.now arrival.now message.now }
{
    let label = centre_label();
    let kept = kept_answer(state, message)?;
    let _from = link_with(state, &message.originator, &label, Side::Sends)?;
    let _to = link_with(state, &message.ultimate, &label, Side::Sends)?;
    if tests_pass(&ers_front(state, message, true, true)) {
        Some(answer_lead(state, arrival, message, &kept))
    } else {
        None
    }
}
