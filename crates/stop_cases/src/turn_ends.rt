// What a turn over two disks answers, and what is shown.
use crate::pairs::{NEW, OLD, REPLY};
use key_journal::Cause;
use mirror_store::PairCause;
use x_base::Text;
use x_party::Outcome;

/// One of a party's two disks.
#[derive(Clone, Copy, PartialEq, Eq)]
pub(crate) enum Which {
    First,
    Second,
}

impl Which {
    /// The disk of that name.
    pub(crate) fn read(name: &str) -> Option<Which> {
        match name {
            "first" => Some(Which::First),
            "second" => Some(Which::Second),
            _ => None,
        }
    }
}

/// What became of the turn.
#[derive(Clone, Copy)]
pub(crate) enum TurnEnd {
    /// The reply was handed out.
    Replied,
    /// A disk failed.
    Stopped,
    Otherwise,
}

/// The end where this is handed out.
pub(crate) fn replied(reply: Option<Text>) -> TurnEnd {
    match reply {
        Some(text) if text.bytes() == REPLY.as_bytes() => TurnEnd::Replied,
        _ => TurnEnd::Otherwise,
    }
}

/// The end where the pair isn't opened, or fails.
pub(crate) fn stopped(cause: PairCause) -> TurnEnd {
    match cause {
        PairCause::First(Cause::Fault) | PairCause::Second(Cause::Fault) => TurnEnd::Stopped,
        _ => TurnEnd::Otherwise,
    }
}

/// The party that is shown.
#[derive(Clone, Copy)]
pub(crate) enum Shown {
    /// As it was before the turn.
    Old,
    /// As it is after it.
    New,
    Otherwise,
}

impl Shown {
    pub(crate) fn name(self) -> &'static str {
        match self {
            Shown::Old => "old",
            Shown::New => "new",
            Shown::Otherwise => "something else",
        }
    }
}

/// The party of which this is shown.
fn party_of(shown: &Text) -> Shown {
    if shown.bytes() == OLD.as_bytes() {
        Shown::Old
    } else if shown.bytes() == NEW.as_bytes() {
        Shown::New
    } else {
        Shown::Otherwise
    }
}

/// What is shown.
pub(crate) fn seen(outcome: Outcome) -> Shown {
    match outcome {
        Outcome::Done { reply: Some(text) } => party_of(&text),
        _ => Shown::Otherwise,
    }
}
