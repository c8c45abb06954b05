// Asking a peer for a data key, or a distribution centre for one that is shared with another.
ghost use Rattle.std.specs.Prelude.{◌≡◌, ◌≤◌, length, IfOk, Some};
ghost use Rattle.party_tables.specs.declared.exchange.Kind.TheVariants.{Asked};
ghost use Rattle.party_tables.specs.Ranges.{longest_text};
ghost use Rattle.party_state.specs.Rows.Reply.{Plain};
ghost use Rattle.role_base.specs.Replies.{IsWritten};
ghost use Rattle.role_base.specs.Deciding.{Decides, AcceptsWith};
ghost use Rattle.party_state.specs.Verdicts.{verdict_of};
ghost use Rattle.bank_orders.specs.Ask.{request, ask_peer, centre_request, centre_front, ask_tests, asked_edits, ask_centre, ask_of};

use csm_grammar::{Message, Rsi, Service};
use party_state::{Decision, Edit, Exchange, Kind, State};
use role_base::{Written, accept, centre_label, is_accept, list_of, refusal, verdict_after};
use std::alloc::Global;
use x_base::{Ident, NoMemory, Side, Text, Verdict};

fn request(state: &State, peer: &Ident) -> Message
    ensures { result ≡ request state.now peer.now }
{
    Message::Rsi(Rsi {
        receiver: *peer,
        originator: state.own(),
        service: Service::Kd,
        ultimate: None,
    })
}

fn request_text(alloc: Global, state: &State, peer: &Ident) -> Result<Written, NoMemory>
    ensures { IfOk result (λ w. IsWritten w (Plain (request state.now peer.now))) }
{
    Written::plain(alloc, request(state, peer))
}

/// What a bank decides where a peer is asked for a key.
#[tactic(auto, using(role_base::proofs::Kept::is_refused))]
fn ask_peer(alloc: Global, state: &State, peer: &Ident) -> Result<Decision, NoMemory>
    ensures { Decides state.now (ask_peer state.now peer.now) result }
{
    if !state.knows(peer) {
        return Ok(refusal(Verdict::UnknownPeer));
    }
    let written = request_text(alloc, state, peer)?;
    accept(alloc, state, Vec::new(alloc), Some(written))
}

fn centre_request(state: &State, centre: &Ident, ultimate: &Ident) -> Message
    ensures { result ≡ centre_request state.now centre.now ultimate.now }
{
    Message::Rsi(Rsi {
        receiver: *centre,
        originator: state.own(),
        service: Service::Kd,
        ultimate: Some(*ultimate),
    })
}

fn centre_text(
    alloc: Global,
    state: &State,
    centre: &Ident,
    ultimate: &Ident,
) -> Result<Written, NoMemory>
    ensures written { IfOk result (λ w. IsWritten w (Plain (centre_request state.now centre.now ultimate.now))) }
    ensures short { IfOk result (λ w. length w.text ≤ longest_text) }
{
    Written::plain(alloc, centre_request(state, centre, ultimate))
}

/// The tests of a command to a centre, but for those of the link with it.
pub(crate) fn centre_front(state: &State, centre: &Ident, ultimate: &Ident) -> [(bool, Verdict); 3]
    ensures { result ≡ centre_front state.now centre.now ultimate.now }
{
    let other = *ultimate != state.own() && *ultimate != *centre;
    let idle = state.exchange(centre).is_none() && state.exchange(ultimate).is_none();
    [
        (state.knows(centre), Verdict::UnknownPeer),
        (other, Verdict::WrongClass),
        (idle, Verdict::Outstanding),
    ]
}

fn centre_verdict(state: &State, centre: &Ident, ultimate: &Ident) -> Verdict
    ensures { result ≡ verdict_of (ask_tests state.now centre.now ultimate.now) }
{
    let front = centre_front(state, centre, ultimate);
    let shared = state.link(centre, &centre_label(), Side::Takes).is_some();
    verdict_after(&front, &[(shared, Verdict::UnknownKk)])
}

/// The exchange with a centre that is asked.
fn asked(centre: &Ident, ultimate: &Ident, text: Text) -> Exchange
    ensures { result ≡ record { peer = centre.now; kind = Asked ultimate.now; text = text } }
{
    let ultimate = *ultimate;
    Exchange {
        peer: *centre,
        kind: Kind::Asked { ultimate },
        text,
    }
}

/// The centre is asked.
fn centre_asked(
    alloc: Global,
    state: &State,
    centre: &Ident,
    ultimate: &Ident,
) -> Result<Decision, NoMemory>
    ensures { AcceptsWith state.now (asked_edits state.now centre.now ultimate.now) (Some (Plain (centre_request state.now centre.now ultimate.now))) result }
{
    let written = centre_text(alloc, state, centre, ultimate)?;
    let exchange = asked(centre, ultimate, written.text.copy(alloc)?);
    let edits = list_of(alloc, [Edit::PutExchange(exchange)])?;
    accept(alloc, state, edits, Some(written))
}

/// What a bank decides where a centre is asked for a key that is shared with an ultimate recipient.
#[tactic(auto, using(role_base::proofs::Kept::is_refused))]
fn ask_centre(
    alloc: Global,
    state: &State,
    centre: &Ident,
    ultimate: &Ident,
) -> Result<Decision, NoMemory>
    ensures { Decides state.now (ask_centre state.now centre.now ultimate.now) result }
{
    let verdict = centre_verdict(state, centre, ultimate);
    if is_accept(&verdict) {
        centre_asked(alloc, state, centre, ultimate)
    } else {
        Ok(refusal(verdict))
    }
}

/// What a bank decides where a key is asked for: of the peer, or for an ultimate recipient of the
/// peer as a distribution centre.
pub(crate) fn ask(
    alloc: Global,
    state: &State,
    peer: &Ident,
    ultimate: &Option<Ident>,
) -> Result<Decision, NoMemory>
    ensures { Decides state.now (ask_of state.now peer.now ultimate.now) result }
{
    match ultimate {
        Some(ultimate) => ask_centre(alloc, state, peer, ultimate),
        None => ask_peer(alloc, state, peer),
    }
}
