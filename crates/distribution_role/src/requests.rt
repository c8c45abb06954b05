// A request for a data key arrives: a drawn key goes back, for both banks.
ghost use Rattle.std.specs.Prelude.{◌≡◌};
ghost use Rattle.role_base.specs.Deciding.{Decides};
ghost use Rattle.distribution_role.specs.Requests.{rsi_front, rsi_tests, rsi};

use crate::answering::answer;
use csm_grammar::{Arrival, Rsi};
use party_state::{AnswerKey, Decision, LinkRec, State, law_accept};
use role_base::{
    centre_label, has_count, is_data_key, is_right, link_with, refusal, request_front, verdict_of,
};
use std::alloc::Global;
use x_base::{Ident, NoMemory, Side, Verdict};

/// The tests before the code's.
fn rsi_front(state: &State, message: &Rsi, ultimate: &Ident, linked: bool) -> [(bool, Verdict); 4]
    ensures { result ≡ rsi_front state.now message.now ultimate.now linked }
{
    let originator = &message.originator;
    let served = is_data_key(message.service) && *ultimate != *originator;
    let [for_me, known, class] = request_front(state, &message.receiver, originator, served);
    [for_me, known, class, (linked, Verdict::UnknownKk)]
}

fn rsi_tests(
    state: &State,
    arrival: &Arrival,
    message: &Rsi,
    ultimate: &Ident,
    from: &LinkRec,
    to: &LinkRec,
) -> [(bool, Verdict); 6]
    ensures { result ≡ rsi_tests state.now arrival.now message.now ultimate.now from.now to.now }
{
    let [for_me, known, class, linked] = rsi_front(state, message, ultimate, true);
    let left = has_count(from) && has_count(to);
    [
        for_me,
        known,
        class,
        linked,
        (is_right(arrival), Verdict::BadEdc),
        (left, Verdict::CountSpent),
    ]
}

/// Decides of a request.
#[tactic(auto, using(role_base::proofs::Kept::is_refused))]
pub(crate) fn rsi(
    alloc: Global,
    state: &State,
    arrival: &Arrival,
    message: &Rsi,
    moment: u64,
) -> Result<Decision, NoMemory>
    ensures { Decides state.now (rsi state.now arrival.now message.now moment) result }
{
    // Tells what an accepted verdict says of the tests.
    law_accept();
    let (requester, label) = (message.originator, centre_label());
    let Some(ultimate) = message.ultimate else {
        let front = request_front(state, &message.receiver, &requester, false);
        return Ok(refusal(verdict_of(&front)));
    };
    let Some(from) = link_with(state, &requester, &label, Side::Sends) else {
        return Ok(refusal(verdict_of(&rsi_front(state, message, &ultimate, false))));
    };
    let Some(to) = link_with(state, &ultimate, &label, Side::Sends) else {
        return Ok(refusal(verdict_of(&rsi_front(state, message, &ultimate, false))));
    };
    let tests = rsi_tests(state, arrival, message, &ultimate, &from, &to);
    let asked = AnswerKey {
        requester,
        ultimate,
    };
    answer(alloc, state, &tests, &asked, &from, &to, moment)
}
