// What is to be done where a text arrives.
ghost use Rattle.std.specs.Prelude.{◌≡◌, ◌≤◌, ℕ, List, length, Some};
ghost use Rattle.course.specs.LineEvents.{Arrives, Returns, input_bytes, receiver_of};
ghost use Rattle.course.specs.Meanings.{HeardOf, MeantBy};

use crate::act::LineAct;
use csm_feed::{INPUT_LIMIT, Unheard};
use csm_grammar::{Arrival, Message};
use party_state::Input;
use x_base::Ident;

/// The first bytes, as many as an input may have.
pub(crate) fn input_bytes(bytes: &[u8]) -> &[u8]
    ensures value { result.now ≡ input_bytes bytes.now }
    ensures few { length result.now ≤ 2049 }
{
    let (front, _) = bytes.split_at(INPUT_LIMIT.min(bytes.len()));
    front
}

/// The party that a message names as its receiver.
fn receiver_of(message: &Message) -> Ident
    ensures { result ≡ receiver_of message.now }
{
    match message {
        Message::Rsi(m) => m.receiver,
        Message::Rfs(m) => m.receiver,
        Message::Rtr(m) => m.receiver,
        Message::Ksm(m) => m.receiver,
        Message::Rsm(m) => m.receiver,
        Message::Ers(m) => m.receiver,
        Message::Esm(m) => m.receiver,
        Message::Dsm(m) => m.receiver,
    }
}

/// What is to be done at a party, where this is heard of the bytes that arrive at it.
pub(crate) fn arrived(party: &Ident, heard: Result<Arrival, Unheard>) -> LineAct
    ensures { (bytes : List ℕ) → HeardOf bytes heard → MeantBy (Arrives party.now (Some bytes)) result }
{
    match heard {
        Ok(arrival) => LineAct::Give {
            party: *party,
            input: Input::Arrived(arrival),
        },
        Err(unheard) => LineAct::Refuse {
            party: *party,
            number: unheard.number(),
        },
    }
}

/// What is to be done at the party that the message names as its receiver, where this is heard of the bytes that arrive.
#[tactic(auto, using(crate::proofs::Meant::returns_unheard))]
pub(crate) fn returned(heard: Result<Arrival, Unheard>) -> LineAct
    ensures { (bytes : List ℕ) → HeardOf bytes heard → MeantBy (Returns (Some bytes)) result }
{
    match heard {
        Ok(arrival) => LineAct::Give {
            party: receiver_of(&arrival.parsed.message),
            input: Input::Arrived(arrival),
        },
        Err(_) => LineAct::Nothing,
    }
}
