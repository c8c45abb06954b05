ghost use Rattle.std.specs.Prelude.{◌≡◌, ◌+◌, ◌<◌, ◌≤◌, [], ℕ, length, slice_get, take, filter, not, Some, IsOk, IfSome, IfOk, OnOk, OnErr};
ghost use Rattle.std.specs.List.{All};
ghost use Rattle.std.specs.Map.Iter.{ShowsInOrder, deref};
ghost use Rattle.std.specs.Option.{option_copied};
ghost use Rattle.party_tables.specs.Tables.{find_row, put_row, drop_row, Distinct};
ghost use Rattle.party_tables.specs.Statuses.{is_ended};

use crate::key::{KeyRec, KeyStatus, RecordKey};
use indexmap::IndexMap;
use indexmap::map::Values;
use std::alloc::Global;
use std::hash::Hash;
use std::marker::Model;
use x_base::NoMemory;

/// A row of a table, and the key under which it stands.
pub trait Row<K>: Drop {
    ghost row_key: { Self → K };

    ghost IsRow: { Self → Type 0 };

    /// The row's key.
    fn row_key(&self) -> K
        ensures { result ≡ row_key self.now };

    /// An equal row in memory of its own.
    fn copied(&self, alloc: Global) -> Result<Self, NoMemory>
        ensures { IfOk result (λ copy. copy ≡ self.now) };
}

/// Rows in order of insertion, each found by its key: seen as the list of the rows, and how many
/// more there is room for.
#[derive(Drop)]
pub struct Table<K: Eq + Hash + Copy, R: Row<K>> {
    map: IndexMap<K, R>,
}

impl<K: Eq + Hash + Copy, R: Row<K>> Model for Table<K, R> {
    ghost use Rattle.std.specs.Prelude.{ℕ, List};
    ghost use Rattle.std.specs.Map.{values_of};
    ghost use Rattle.indexmap.specs.IndexMap.{spare};
    ghost use Rattle.party_tables.specs.Keyed.{IsTable};

    ghost Value = { List R × ℕ };

    ghost view = { λ t. (values_of t.map.entries, spare t.map) };

    ghost invariant = { λ t. IsTable R.row_key K.eq R.IsRow t.map.entries };
}

impl<K: Eq + Hash + Copy, R: Row<K>> Table<K, R> {
    /// No rows, which takes no memory.
    pub fn new(alloc: Global) -> Table<K, R>
        ensures { result.0 ≡ [] }
    {
        Table {
            map: IndexMap::new(alloc),
        }
    }

    /// The row with that key.
    pub fn find(&self, key: &K) -> Option<&R>
        ensures found { option_copied result ≡ find_row R.row_key K.eq key.now self.now.0 }
        ensures row { IfSome result (λ r. R.IsRow r.now) }
    {
        // Mostly the last row is looked for, and then no hash is made.
        match self.last_with(key) {
            Some(row) => Some(row),
            None => self.map.get(key),
        }
    }

    /// The last row, if it has that key.
    fn last_with(&self, key: &K) -> Option<&R>
        ensures { IfSome result (λ r. find_row R.row_key K.eq key.now self.now.0 ≡ Some r.now) }
    {
        let (_, row) = self.map.get_index(self.map.len().saturating_sub(1))?;
        if row.row_key() == *key {
            Some(row)
        } else {
            None
        }
    }

    /// Row `i`, from 0.
    pub fn at(&self, i: usize) -> Option<&R>
        ensures found { option_copied result ≡ slice_get self.now.0 i }
        ensures row { IfSome result (λ r. R.IsRow r.now) }
    {
        let (_, row) = self.map.get_index(i)?;
        Some(row)
    }

    /// What gives the table its memory.
    pub fn allocator(&self) -> Global {
        *self.map.allocator()
    }

    /// How many rows there are.
    pub fn len(&self) -> usize
        ensures { result ≡ length self.now.0 }
    {
        self.map.len()
    }

    /// No two rows have one key, and each is a row of the table. It does nothing.
    pub fn law_rows(&self)
        ensures once { Distinct R.row_key K.eq self.now.0 }
        ensures rows { All R.IsRow self.now.0 }
    {
        let _rows = self.map.len();
    }

    /// The rows, in their order.
    pub fn rows(&self) -> Values<'_, K, R>
        ensures rest { result ≡ self.now.0 }
        ensures runs { ShowsInOrder (deref {X = R}) }
    {
        self.map.values()
    }

    /// Makes room for that many more rows.
    pub fn reserve(&mut self, rows: usize) -> Result<(), NoMemory>
        ensures same { self.new.0 ≡ self.old.0 }
        ensures room { OnOk result (rows ≤ self.new.1) }
    {
        if rows > 0 {
            self.map.reserve(rows)?;
        }
        Ok(())
    }

    /// Puts the row in the place of the one with its key, or at the end.
    pub fn put(&mut self, row: R) -> Result<(), NoMemory>
        requires { R.IsRow row }
        ensures put { OnOk result (self.new.0 ≡ put_row R.row_key K.eq row self.old.0) }
        ensures kept { OnErr result (self.new.0 ≡ self.old.0) }
        ensures succeeds { 0 < self.old.1 → IsOk result }
        ensures room { self.old.1 ≤ self.new.1 + 1 }
    {
        let key = row.row_key();
        // Where the last row has that key, it is written over in place, with no hash.
        if let Some(last) = self.map.last_mut()
            && last.row_key() == key
        {
            *last = row;
            return Ok(());
        }
        match self.map.insert(key, row) {
            Ok(_) => Ok(()),
            Err(_) => Err(NoMemory),
        }
    }

    /// Takes the row with that key out, and closes up.
    pub fn remove(&mut self, key: &K)
        ensures rows { self.new.0 ≡ drop_row R.row_key K.eq key.now self.old.0 }
        ensures room { self.old.1 ≤ self.new.1 }
    {
        // The length shows that no key stands twice.
        let _rows = self.map.len();
        self.map.shift_remove(key);
    }

    /// The same rows in memory of their own.
    pub fn copy(&self, alloc: Global) -> Result<Table<K, R>, NoMemory>
        ensures { IfOk result (λ copy. copy.0 ≡ self.now.0) }
    {
        let rows = self.len();
        let mut copy = Table::new(alloc);
        copy.reserve(rows)?;
        for i in 0..rows {
            self.copy_row(alloc, i, &mut copy)?;
        }
        Ok(copy)
    }

    /// Puts a copy of row `i` behind those of the rows before it.
    fn copy_row(&self, alloc: Global, i: usize, copy: &mut Table<K, R>) -> Result<(), NoMemory>
        requires before { copy.old.0 ≡ take i self.now.0 }
        requires within { i < length self.now.0 }
        ensures { OnOk result (copy.new.0 ≡ take (i + 1) self.now.0) }
    {
        self.law_rows();
        match self.at(i) {
            Some(row) => copy.put(row.copied(alloc)?),
            None => Ok(()),
        }
    }
}

impl Table<RecordKey, KeyRec> {
    /// Takes the records of ended keys out, and closes up.
    pub fn remove_ended(&mut self)
        ensures rows { self.new.0 ≡ filter (λ k. not (is_ended k.status)) self.old.0 }
        ensures room { self.old.1 ≤ self.new.1 }
    {
        self.map.retain(
            |_key: &RecordKey, row: &mut KeyRec| -> bool
                ensures { (result ≡ not (is_ended row.old.status)) × (row.new ≡ row.old) }
            { row.status != KeyStatus::Ended },
        );
    }
}
