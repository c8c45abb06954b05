// An answer of a translation centre: its key is the one that waits there.
ghost use Rattle.std.specs.Prelude.{◌≡◌, ◌++◌, ◌∷◌, Some};
ghost use Rattle.x_base.specs.declared.verdict.Verdict.TheVariants.{BadMac};
ghost use Rattle.party_state.specs.Verdicts.{verdict_of};
ghost use Rattle.role_base.specs.Texts.{lead_under};
ghost use Rattle.role_base.specs.Deciding.{Decides};
ghost use Rattle.bank_keys.specs.Waiting.{waiting_with};
ghost use Rattle.bank_keys.specs.Rtr.{rtr_rest, is_ultimate, translated_front, translated, translated_under, translated_lead};

use crate::passing::{pass_on, rtr_front, rtr_rest};
use crate::waits::{KeyAtCentre, waiting_with};
use csm_grammar::{Arrival, Rtr};
use party_state::{Decision, Lead, State, Via, law_accept};
use role_base::{
    centre_label, direct_name, early_refusal, is_accept, lead_under, refusal, tests_pass,
    verdict_after,
};
use std::alloc::Global;
use x_base::{FullName, Ident, NoMemory, Verdict};

fn is_ultimate(found: &Option<KeyAtCentre>, ultimate: &Ident) -> bool
    ensures { result ≡ is_ultimate found.now ultimate.now }
{
    match found {
        Some(waiting) => waiting.ultimate == *ultimate,
        None => false,
    }
}

fn translated_front(
    state: &State,
    message: &Rtr,
    found: &Option<KeyAtCentre>,
) -> [(bool, Verdict); 4]
    ensures { result ≡ translated_front state.now message.now found.now }
{
    rtr_front(state, message, is_ultimate(found, &message.ultimate))
}

/// The verdict for a key that waits, the code being tested.
fn translated_verdict(
    state: &State,
    message: &Rtr,
    waiting: &KeyAtCentre,
    verified: bool,
) -> Verdict
    ensures { result ≡ verdict_of (translated_front state.now message.now (Some waiting.now) ++ (verified, BadMac) ∷ rtr_rest state.now message.now) }
{
    let front = translated_front(state, message, &Some(*waiting));
    let [other, room] = rtr_rest(state, message);
    verdict_after(&front, &[(verified, Verdict::BadMac), other, room])
}

/// Decides of an answer to a key that waits, with the key under which its code is tested.
#[tactic(auto, using(crate::proofs::CentreAnswers::translated_room))]
pub(crate) fn translated(
    alloc: Global,
    state: &State,
    arrival: &Arrival,
    message: &Rtr,
    lead: &Option<Lead>,
) -> Result<Decision, NoMemory>
    requires { lead.now ≡ translated_lead state.now arrival.now message.now (waiting_with state.now message.now.originator) }
    ensures { Decides state.now (translated state.now arrival.now message.now (waiting_with state.now message.now.originator)) result }
{
    // Tells what an accepted verdict says of the tests.
    law_accept();
    let found = waiting_with(state, &message.originator);
    let Some(waiting) = &found else {
        return Ok(early_refusal(&translated_front(state, message, &found)));
    };
    let Some(lead) = lead else {
        return Ok(early_refusal(&translated_front(state, message, &found)));
    };
    let verdict = translated_verdict(state, message, waiting, lead.verified);
    if !is_accept(&verdict) {
        return Ok(refusal(verdict));
    }
    let via = Via::Translation {
        centre: message.originator,
    };
    pass_on(alloc, state, message, None, lead.value, via)
}

/// The name of the key as it went to the centre.
fn translated_under(state: &State, message: &Rtr, waiting: &KeyAtCentre) -> FullName
    ensures { result ≡ translated_under state.now message.now waiting.now }
{
    FullName {
        name: direct_name(state.own(), centre_label(), waiting.cta),
        recipient: message.originator,
    }
}

pub(crate) fn translated_lead(state: &State, arrival: &Arrival, message: &Rtr) -> Option<Lead>
    ensures { result ≡ translated_lead state.now arrival.now message.now (waiting_with state.now message.now.originator) }
{
    let found = waiting_with(state, &message.originator);
    let front = translated_front(state, message, &found);
    let waiting = found?;
    if tests_pass(&front) {
        let under = translated_under(state, message, &waiting);
        Some(lead_under(arrival, under, waiting.value))
    } else {
        None
    }
}
