// Starting: a new data key for a peer.
ghost use Rattle.std.specs.Prelude.{◌≡◌, IfSome};
ghost use Rattle.role_base.specs.Standing.{LinkStands};
ghost use Rattle.role_base.specs.Deciding.{Decides};
ghost use Rattle.bank_orders.specs.Start.{labelled_link, sending_link, start_tests, start};

use party_state::{Decision, LinkRec, State};
use role_base::{first_link, is_of_centre, link_with, refusal, send, verdict_of};
use std::alloc::Global;
use x_base::{Ident, Label, NoMemory, Side, Verdict};

/// The ready link with that label, which isn't a centre's.
fn labelled_link(state: &State, peer: &Ident, label: &Label) -> Option<LinkRec>
    ensures link { result ≡ labelled_link state.now peer.now label.now }
    ensures stands { IfSome result (LinkStands state.now) }
{
    if is_of_centre(label) {
        return None;
    }
    link_with(state, peer, label, Side::Sends).filter(|link| link.ready)
}

/// The link to send under: the one with that label, or the first.
pub(crate) fn sending_link(state: &State, peer: &Ident, label: &Option<Label>) -> Option<LinkRec>
    ensures link { result ≡ sending_link state.now peer.now label.now }
    ensures stands { IfSome result (LinkStands state.now) }
{
    match label {
        Some(label) => labelled_link(state, peer, label),
        None => first_link(state, peer, Side::Sends),
    }
}

/// The tests before those of the link.
pub(crate) fn start_tests(
    state: &State,
    peer: &Ident,
    found: &Option<LinkRec>,
) -> [(bool, Verdict); 3]
    ensures { result ≡ start_tests state.now peer.now found.now }
{
    [
        (state.knows(peer), Verdict::UnknownPeer),
        (state.exchange(peer).is_none(), Verdict::Outstanding),
        (found.is_some(), Verdict::UnknownKk),
    ]
}

/// What a bank decides where a new data key is to be sent to a peer, under the link with that label
/// or the first one.
#[tactic(auto, using(role_base::proofs::Kept::is_refused))]
pub(crate) fn start(
    alloc: Global,
    state: &State,
    peer: &Ident,
    label: &Option<Label>,
    moment: u64,
) -> Result<Decision, NoMemory>
    ensures { Decides state.now (start state.now peer.now label.now moment) result }
{
    let found = sending_link(state, peer, label);
    let front = start_tests(state, peer, &found);
    match found {
        Some(link) => send(alloc, state, &front, &link, moment),
        None => Ok(refusal(verdict_of(&front))),
    }
}
