use crate::table::Row;
use std::alloc::Global;
use x_base::{Count, Ident, NoMemory};

/// What an answer is found by.
#[derive(Clone, Copy, PartialEq, Eq, Hash)]
pub struct AnswerKey {
    pub requester: Ident,
    pub ultimate: Ident,
}

/// The last key that a distribution centre sent to a requester for an ultimate recipient.
#[derive(Clone, Copy, PartialEq, Eq)]
pub struct Answer {
    pub requester: Ident,
    pub ultimate: Ident,
    pub cta: Count,
    pub value: u64,
}

impl Row<AnswerKey> for Answer {
    ghost use Rattle.party_tables.specs.Keys.{answer_key};
    ghost use Rattle.party_tables.specs.Ranges.{IsCentreAnswer};

    ghost row_key = { answer_key };

    ghost IsRow = { IsCentreAnswer };

    fn row_key(&self) -> AnswerKey {
        AnswerKey {
            requester: self.requester,
            ultimate: self.ultimate,
        }
    }

    fn copied(&self, _: Global) -> Result<Answer, NoMemory> {
        Ok(*self)
    }
}
