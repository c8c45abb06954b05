// An error service message that is closed by an error detection code arrives: it changes nothing.
ghost use Rattle.std.specs.Prelude.{◌≡◌, IfOk};
ghost use Rattle.party_state.specs.Verdicts.{verdict_of};
ghost use Rattle.role_base.specs.Texts.{is_plain};
ghost use Rattle.role_base.specs.Deciding.{decision_of};
ghost use Rattle.bank_arrivals.specs.Esm.{plain_tests, plain_esm};

use csm_grammar::{Arrival, Esm, Shut};
use party_state::{Decision, State};
use role_base::{accept, answer_front, is_accept, is_right, is_waiting, refusal, verdict_after};
use std::alloc::Global;
use x_base::{NoMemory, Verdict};

fn plain_verdict(state: &State, arrival: &Arrival, message: &Esm) -> Verdict
    ensures { result ≡ verdict_of (plain_tests state.now arrival.now message.now) }
{
    let peer = &message.originator;
    let tests_before_code = answer_front(state, &message.receiver, peer, is_waiting(state, peer));
    verdict_after(&tests_before_code, &[(is_right(arrival), Verdict::BadEdc)])
}

/// One that is closed by an error detection code alone changes nothing.
#[tactic(auto, using(crate::proofs::ErrorMessages::plain_refuses, crate::proofs::ErrorMessages::plain_accepts))]
pub(crate) fn plain_esm(
    alloc: Global,
    state: &State,
    arrival: &Arrival,
    message: &Esm,
) -> Result<Decision, NoMemory>
    ensures { IfOk result (λ d. d ≡ decision_of state.now (plain_esm state.now arrival.now message.now)) }
{
    let verdict = plain_verdict(state, arrival, message);
    if is_accept(&verdict) {
        accept(alloc, state, Vec::new(alloc), None)
    } else {
        Ok(refusal(verdict))
    }
}

pub(crate) fn is_plain(arrival: &Arrival) -> bool
    ensures { result ≡ is_plain arrival.now.parsed.shut }
{
    match arrival.parsed.shut {
        Shut::Mac(_) => false,
        Shut::Edc(_) => true,
    }
}
