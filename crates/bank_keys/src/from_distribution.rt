// An answer of a distribution centre: it brings the key, under the link with the centre.
ghost use Rattle.std.specs.Prelude.{◌≡◌, ◌+◌, ◌++◌, ◌∷◌, Some, IfSome};
ghost use Rattle.x_base.specs.declared.verdict.Verdict.TheVariants.{BadMac};
ghost use Rattle.party_tables.specs.Keys.{takes};
ghost use Rattle.party_state.specs.State.{centre_label, link_with};
ghost use Rattle.party_state.specs.Verdicts.{verdict_of};
ghost use Rattle.role_base.specs.Texts.{lead_under};
ghost use Rattle.role_base.specs.Conditions.{count_tests};
ghost use Rattle.role_base.specs.Standing.{LinkStands};
ghost use Rattle.role_base.specs.Deciding.{Decides};
ghost use Rattle.bank_keys.specs.Rtr.{rtr_rest, brought_front, brought, brought_under, brought_lead};

use crate::passing::{pass_on, rtr_front, rtr_rest};
use crate::waits::is_asked;
use csm_grammar::{Arrival, Rtr};
use party_state::{Decision, Lead, LinkRec, State, Via, law_accept};
use role_base::{
    centre_label, count_tests, direct_name, early_refusal, is_accept, lead_under, link_behind,
    link_with, refusal, tests_pass, verdict_after,
};
use std::alloc::Global;
use x_base::{Count, FullName, Ident, NoMemory, Side, Verdict};
use x_seal::unwrap;

fn brought_front(state: &State, message: &Rtr, found: &Option<LinkRec>) -> [(bool, Verdict); 5]
    ensures { result ≡ brought_front state.now message.now found.now }
{
    let asked = is_asked(state, &message.originator, &message.ultimate);
    let [for_me, known, stands, alone] = rtr_front(state, message, asked);
    let linked = (found.is_some(), Verdict::UnknownKk);
    [for_me, known, stands, alone, linked]
}

/// The verdict under a link, the code being tested.
fn brought_verdict(
    state: &State,
    message: &Rtr,
    kd: &(u64, Count),
    link: &LinkRec,
    verified: bool,
) -> Verdict
    ensures { result ≡ verdict_of (brought_front state.now message.now (Some link.now) ++ (verified, BadMac) ∷ (count_tests link.now kd.now.1 ++ rtr_rest state.now message.now)) }
{
    let front = brought_front(state, message, &Some(*link));
    let [low, spent] = count_tests(link, kd.1);
    let [other, room] = rtr_rest(state, message);
    verdict_after(
        &front,
        &[(verified, Verdict::BadMac), low, spent, other, room],
    )
}

/// The link with a centre under which keys come.
fn centre_link(state: &State, centre: &Ident) -> Option<LinkRec>
    ensures link { result ≡ link_with (takes centre.now centre_label) state.now }
    ensures stands { IfSome result (LinkStands state.now) }
{
    link_with(state, centre, &centre_label(), Side::Takes)
}

/// Decides of an answer that brings a key, with the key under which its code is tested.
#[tactic(auto, using(crate::proofs::CentreAnswers::used_keepable, crate::proofs::CentreAnswers::brought_room))]
pub(crate) fn brought(
    alloc: Global,
    state: &State,
    arrival: &Arrival,
    message: &Rtr,
    kd: &(u64, Count),
    lead: &Option<Lead>,
) -> Result<Decision, NoMemory>
    requires { lead.now ≡ brought_lead state.now arrival.now message.now kd.now (link_with (takes message.now.originator centre_label) state.now) }
    ensures { Decides state.now (brought state.now arrival.now message.now kd.now (link_with (takes message.now.originator centre_label) state.now)) result }
{
    // Tells what an accepted verdict says of the tests.
    law_accept();
    let found = centre_link(state, &message.originator);
    let Some(link) = &found else {
        return Ok(early_refusal(&brought_front(state, message, &found)));
    };
    let Some(lead) = lead else {
        return Ok(early_refusal(&brought_front(state, message, &found)));
    };
    let verdict = brought_verdict(state, message, kd, link, lead.verified);
    if !is_accept(&verdict) {
        return Ok(refusal(verdict));
    }
    let via = Via::Distribution {
        centre: message.originator,
        cta: kd.1,
    };
    let used = link_behind(link, kd.1);
    pass_on(alloc, state, message, Some(used), lead.value, via)
}

/// The name of the key as it came.
fn brought_under(state: &State, message: &Rtr, cta: Count) -> FullName
    ensures { result ≡ brought_under state.now message.now cta }
{
    FullName {
        name: direct_name(message.originator, centre_label(), cta),
        recipient: state.own(),
    }
}

pub(crate) fn brought_lead(
    state: &State,
    arrival: &Arrival,
    message: &Rtr,
    kd: &(u64, Count),
) -> Option<Lead>
    ensures { result ≡ brought_lead state.now arrival.now message.now kd.now (link_with (takes message.now.originator centre_label) state.now) }
{
    let found = centre_link(state, &message.originator);
    let front = brought_front(state, message, &found);
    let link = found?;
    if tests_pass(&front) {
        let value = unwrap(link.pair, kd.1, kd.0);
        Some(lead_under(arrival, brought_under(state, message, kd.1), value))
    } else {
        None
    }
}
