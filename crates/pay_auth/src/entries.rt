// The entries of a ledger.
ghost use Rattle.std.specs.Prelude.{◌≡◌, ◌<◌, ◌≤◌, true, false, length, slice_get, option_map, IfSome, IfOk, OnOk, OnErr};
ghost use Rattle.std.specs.List.{All};
ghost use Rattle.pay_auth.specs.declared.entry.EntryKey.{EntryKey as TheKey};
ghost use Rattle.pay_auth.specs.Entries.{IsEntry, entry_key, same_entry, put_entry, put_entries, last_number, is_full_for, most_entries};
ghost use Rattle.party_tables.specs.Tables.{Distinct};
ghost use Rattle.x_base.specs.Count.{count_limit};

use crate::body::decode_body;
use crate::entry::{Entry, EntryKey};
use journal_state::Judge;
use party_tables::{Row, Table};
use std::alloc::Global;
use std::marker::Model;
use x_base::NoMemory;

/// The most entries of a ledger.
const MOST_ENTRIES: usize = 4_096;

/// The entries of a ledger in order of insertion, each found by its key.
#[derive(Drop)]
pub struct Entries {
    table: Table<EntryKey, Entry>,
}

impl Model for Entries {
    ghost use Rattle.std.specs.Prelude.{List, length, ◌≤◌};
    ghost use Rattle.pay_auth.specs.declared.entry.Entry.{Entry as TheEntry};
    ghost use Rattle.pay_auth.specs.Entries.{most_entries};

    ghost Value = { List TheEntry };

    ghost view = { λ e. e.table.0 };

    ghost invariant = { λ e. length e.table.0 ≤ most_entries };
}

/// Keys of entries are compared by what they hold. It does nothing.
fn law_entry_test()
    ensures { (a b : TheKey) → ⟦<EntryKey as PartialEq>⟧.eq a b ≡ same_entry a b }
{}

impl Entries {
    /// The last number under a key on a side, and 0 where there is none.
    pub(crate) fn last(&self, key: &EntryKey) -> u64
        ensures last { result ≡ last_number key.now self.now }
        ensures small { result ≤ count_limit }
    {
        law_entry_test();
        match self.table.find(key) {
            Some(entry) => entry.last.value(),
            None => 0,
        }
    }

    /// Whether an entry is needed for the key, and there are as many as there can be.
    pub(crate) fn is_full_for(&self, key: &EntryKey) -> bool
        ensures { result ≡ is_full_for key.now self.now }
    {
        law_entry_test();
        self.table.find(key).is_none() && MOST_ENTRIES <= self.table.len()
    }

    /// Puts the entry in the place of the one with its key, or at the end.
    pub(crate) fn put(&mut self, entry: Entry) -> Result<(), NoMemory>
        requires { is_full_for (entry_key entry) self.old ≡ false }
        ensures put { OnOk result (self.new ≡ put_entry entry self.old) }
        ensures kept { OnErr result (self.new ≡ self.old) }
    {
        law_entry_test();
        self.table.put(entry)
    }

    /// Puts the entries, one after the other, and answers whether there is place for all.
    fn put_all(&mut self, entries: &[Entry]) -> Result<bool, NoMemory>
        ensures yes { IfOk result (λ goes. goes ≡ true → self.new ≡ put_entries entries.now self.old) }
        ensures no { IfOk result (λ goes. goes ≡ false → most_entries < length (put_entries entries.now self.old)) }
    {
        for entry in entries {
            if self.is_full_for(&entry.row_key()) {
                return Ok(false);
            }
            self.put(*entry)?;
        }
        Ok(true)
    }

    /// The same entries in memory of their own.
    pub(crate) fn copy(&self, alloc: Global) -> Result<Entries, NoMemory>
        ensures { IfOk result (λ copy. copy ≡ self.now) }
    {
        let table = self.table.copy(alloc)?;
        Ok(Entries { table })
    }

    /// Each entry is in its range, and there aren't too many. It does nothing.
    pub(crate) fn law_entries(&self)
        ensures in_range { All IsEntry self.now }
        ensures once { Distinct entry_key same_entry self.now }
        ensures few { length self.now ≤ most_entries }
    {
        law_entry_test();
        self.table.law_rows();
    }

    /// How many entries there are.
    pub(crate) fn len(&self) -> usize
        ensures { result ≡ length self.now }
    {
        self.table.len()
    }

    /// Entry `i`, from 0.
    pub(crate) fn at(&self, i: usize) -> Option<&Entry>
        ensures found { option_map (λ e. e.now) result ≡ slice_get self.now i }
        ensures in_range { IfSome result (λ e. IsEntry e.now) }
    {
        self.table.at(i)
    }
}

impl Judge for Entries {
    ghost use Rattle.std.specs.Prelude.{[]};
    ghost use Rattle.pay_auth.specs.Bodies.{PutsBody};
    ghost use Rattle.pay_auth.specs.EntryLaws.{one_body};

    ghost start = { [] };

    ghost step = { PutsBody };

    ghost one_next = { one_body };

    fn start(alloc: Global) -> Entries {
        Entries {
            table: Table::new(alloc),
        }
    }

    fn follow(&mut self, alloc: Global, body: &[u8]) -> Result<bool, NoMemory> {
        match decode_body(alloc, body)? {
            Some(entries) => {
                let goes = self.put_all(&entries)?;
                self.law_entries();
                Ok(goes)
            }
            None => Ok(false),
        }
    }
}
