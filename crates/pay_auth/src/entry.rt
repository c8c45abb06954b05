ghost use Rattle.pay_auth.specs.Entries.{IsEntry};

use party_tables::{Row, law_ident, law_label};
use std::alloc::Global;
use x_base::{Count, Ident, KeyName, NoMemory, Side};

/// What an entry is found by.
#[derive(Clone, Copy, PartialEq, Eq, Hash)]
pub struct EntryKey {
    pub peer: Ident,
    pub name: KeyName,
    pub side: Side,
}

/// The last number under a key, of the payments that were paid out (`Sends`) or taken in (`Takes`).
#[derive(Clone, Copy)]
pub struct Entry {
    pub peer: Ident,
    pub name: KeyName,
    pub side: Side,
    pub last: Count,
}

impl Row<EntryKey> for Entry {
    ghost use Rattle.pay_auth.specs.Entries.{IsEntry, entry_key};

    ghost row_key = { entry_key };

    ghost IsRow = { IsEntry };

    fn row_key(&self) -> EntryKey {
        EntryKey {
            peer: self.peer,
            name: self.name,
            side: self.side,
        }
    }

    fn copied(&self, _: Global) -> Result<Entry, NoMemory> {
        Ok(*self)
    }
}

/// Each part of an entry is in its range. It does nothing.
pub(crate) fn law_entry(entry: &Entry)
    ensures { IsEntry entry.now }
{
    law_ident(&entry.peer);
    law_ident(&entry.name.issuer);
    law_ident(&entry.name.originator);
    law_label(&entry.name.label);
    entry.name.count.value();
    entry.last.value();
}
