// Discontinuing a data key, and removing the records of ended keys.
ghost use Rattle.std.specs.Prelude.{◌≡◌, ◌≤◌, length, IfOk, Some};
ghost use Rattle.party_tables.specs.Ranges.{longest_text};
ghost use Rattle.role_base.specs.Replies.{IsWritten};
ghost use Rattle.role_base.specs.Standing.{KeyStands};
ghost use Rattle.role_base.specs.Deciding.{Decides, AcceptsWith};
ghost use Rattle.bank_orders.specs.Ending.{can_end, end_tests, end_message, end_reply, ended_edits, end, purge};

use csm_grammar::{Dsm, Message};
use party_state::{Decision, Edit, Exchange, KeyRec, KeyStatus, Kind, State, law_found};
use role_base::{Written, accept, is_accept, list_of, refusal, verdict_of};
use std::alloc::Global;
use x_base::{Ident, KeyName, NoMemory, Verdict};

/// Whether a key is neither pending nor ended.
fn can_end(status: KeyStatus) -> bool
    ensures { result ≡ can_end status }
{
    match status {
        KeyStatus::Live | KeyStatus::Held | KeyStatus::Closing => true,
        KeyStatus::Pending | KeyStatus::Ended => false,
    }
}

fn end_tests(state: &State, peer: &Ident, found: bool) -> [(bool, Verdict); 2]
    ensures { result ≡ end_tests state.now peer.now found }
{
    [
        (state.exchange(peer).is_none(), Verdict::Outstanding),
        (found, Verdict::UnknownKey),
    ]
}

fn end_message(state: &State, key: &KeyRec) -> Message
    ensures { result ≡ end_message state.now key.now }
{
    Message::Dsm(Dsm {
        receiver: key.peer,
        originator: state.own(),
        idd: key.name,
        ida: None,
    })
}

fn end_text(alloc: Global, state: &State, key: &KeyRec) -> Result<Written, NoMemory>
    ensures written { IfOk result (λ w. IsWritten w (end_reply state.now key.now)) }
    ensures short { IfOk result (λ w. length w.text ≤ longest_text) }
{
    let under = key.full_name(&state.own());
    Written::coded(alloc, end_message(state, key), under, key.value)
}

/// The key is being closed, and the peer hears of it.
fn end_key(alloc: Global, state: &State, key: &KeyRec) -> Result<Decision, NoMemory>
    requires { KeyStands state.now key.now }
    ensures { AcceptsWith state.now (ended_edits state.now key.now) (Some (end_reply state.now key.now)) result }
{
    let written = end_text(alloc, state, key)?;
    let exchange = Exchange {
        peer: key.peer,
        kind: Kind::Ending { name: key.name },
        text: written.text.copy(alloc)?,
    };
    let ended = KeyRec {
        status: KeyStatus::Closing,
        ..*key
    };
    let edits = [Edit::PutKey(ended), Edit::PutExchange(exchange)];
    accept(alloc, state, list_of(alloc, edits)?, Some(written))
}

/// What a bank decides where a key that it shares with a peer is to end.
#[tactic(auto, using(role_base::proofs::Kept::is_refused))]
pub(crate) fn end(
    alloc: Global,
    state: &State,
    peer: &Ident,
    name: &KeyName,
) -> Result<Decision, NoMemory>
    ensures { Decides state.now (end state.now peer.now name.now) result }
{
    // Tells that what is found has the key under which it was looked for.
    law_found();
    match state.key(peer, name) {
        Some(key) => {
            let verdict = verdict_of(&end_tests(state, peer, can_end(key.status)));
            if is_accept(&verdict) {
                end_key(alloc, state, key)
            } else {
                Ok(refusal(verdict))
            }
        }
        None => Ok(refusal(verdict_of(&end_tests(state, peer, false)))),
    }
}

/// What a bank decides where the records of ended keys are to go.
pub(crate) fn purge(alloc: Global, state: &State) -> Result<Decision, NoMemory>
    ensures { Decides state.now purge result }
{
    accept(alloc, state, list_of(alloc, [Edit::DropEnded])?, None)
}
