use crate::table::Row;
use std::alloc::Global;
use x_base::{Ident, KeyName, NoMemory};

/// How far a data key has come.
#[derive(Clone, Copy, PartialEq, Eq)]
pub enum KeyStatus {
    /// Sent, and not yet answered.
    Pending,
    /// Its originator knows that the recipient holds it.
    Live,
    /// Its recipient holds it.
    Held,
    /// Its disconnection was asked for, and not yet answered.
    Closing,
    /// Discontinued.
    Ended,
}

/// What a key record is found by.
#[derive(Clone, Copy, PartialEq, Eq, Hash)]
pub struct RecordKey {
    pub peer: Ident,
    pub name: KeyName,
}

/// A data key shared with a peer (ANSI X9.17).
#[derive(Clone, Copy, PartialEq, Eq)]
pub struct KeyRec {
    pub peer: Ident,
    pub name: KeyName,
    pub value: u64,
    pub status: KeyStatus,
}

impl Row<RecordKey> for KeyRec {
    ghost use Rattle.party_tables.specs.Keys.{record_key};
    ghost use Rattle.party_tables.specs.Ranges.{IsRecord};

    ghost row_key = { record_key };

    ghost IsRow = { IsRecord };

    fn row_key(&self) -> RecordKey {
        RecordKey {
            peer: self.peer,
            name: self.name,
        }
    }

    fn copied(&self, _: Global) -> Result<KeyRec, NoMemory> {
        Ok(*self)
    }
}
