// A request for service initiation arrives: a data key goes back under the first link, or two of
// them.
ghost use Rattle.std.specs.Prelude.{◌≡◌, true};
ghost use Rattle.party_state.specs.Verdicts.{all_refuse};
ghost use Rattle.role_base.specs.Standing.{LinkStands};
ghost use Rattle.role_base.specs.Deciding.{Decides};
ghost use Rattle.bank_arrivals.specs.Rsi.{rsi_tests, sending_by, rsi};

use crate::sending_twins::send_two;
use csm_grammar::{Arrival, Rsi};
use party_state::{Decision, LinkRec, State};
use role_base::{
    first_link, is_data_key, is_for, is_right, is_two_keys, refusal, send, verdict_of,
};
use std::alloc::Global;
use x_base::{NoMemory, Side, Verdict};

fn rsi_tests(
    state: &State,
    arrival: &Arrival,
    message: &Rsi,
    found: &Option<LinkRec>,
) -> [(bool, Verdict); 6]
    ensures { result ≡ rsi_tests state.now arrival.now message.now found.now }
{
    let peer = &message.originator;
    let keys = is_data_key(message.service) || is_two_keys(message.service);
    let served = keys && message.ultimate.is_none();
    [
        (is_for(state, &message.receiver, peer), Verdict::NotForMe),
        (state.knows(peer), Verdict::UnknownPeer),
        (served, Verdict::WrongClass),
        (state.exchange(peer).is_none(), Verdict::Outstanding),
        (found.is_some(), Verdict::UnknownKk),
        (is_right(arrival), Verdict::BadEdc),
    ]
}

/// What is decided under the link, by the keys that are asked for.
fn rsi_row(
    alloc: Global,
    state: &State,
    tests: &[(bool, Verdict)],
    link: &LinkRec,
    two: bool,
    moment: u64,
) -> Result<Decision, NoMemory>
    requires stands { LinkStands state.now link.now }
    requires refuse { all_refuse tests.now ≡ true }
    ensures { Decides state.now (sending_by state.now tests.now link.now moment two) result }
{
    if two {
        send_two(alloc, state, tests, link, moment)
    } else {
        send(alloc, state, tests, link, moment)
    }
}

/// What is decided of a request for a data key, or for two, at a moment. The only error is want of
/// memory.
#[tactic(auto, using(role_base::proofs::Kept::is_refused))]
pub fn rsi(
    alloc: Global,
    state: &State,
    arrival: &Arrival,
    message: &Rsi,
    moment: u64,
) -> Result<Decision, NoMemory>
    ensures { Decides state.now (rsi state.now arrival.now message.now moment) result }
{
    let found = first_link(state, &message.originator, Side::Sends);
    let tests = rsi_tests(state, arrival, message, &found);
    match found {
        Some(link) => {
            let two = is_two_keys(message.service);
            rsi_row(alloc, state, &tests, &link, two, moment)
        }
        None => Ok(refusal(verdict_of(&tests))),
    }
}
