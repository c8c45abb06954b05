use crate::table::Row;
use std::alloc::Global;
use x_base::{Ident, Label, NoMemory, Side};
use x_mac::Pair;

/// What a link is found by.
#[derive(Clone, Copy, PartialEq, Eq, Hash)]
pub struct LinkKey {
    pub peer: Ident,
    pub label: Label,
    pub side: Side,
}

/// A key-encrypting key shared with a peer (ANSI X9.17).
///
/// `next` is the next count at which the sending side encrypts, and the expected count at the
/// receiving side: a count, or one past the last.
#[derive(Clone, Copy, PartialEq, Eq)]
pub struct LinkRec {
    pub peer: Ident,
    pub label: Label,
    pub side: Side,
    pub pair: Pair,
    pub next: u64,
    pub ready: bool,
}

impl Row<LinkKey> for LinkRec {
    ghost use Rattle.party_tables.specs.Keys.{link_key};
    ghost use Rattle.party_tables.specs.Ranges.{IsLink};

    ghost row_key = { link_key };

    ghost IsRow = { IsLink };

    fn row_key(&self) -> LinkKey {
        LinkKey {
            peer: self.peer,
            label: self.label,
            side: self.side,
        }
    }

    fn copied(&self, _: Global) -> Result<LinkRec, NoMemory> {
        Ok(*self)
    }
}
