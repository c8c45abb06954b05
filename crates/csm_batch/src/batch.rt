// A batch.
ghost use Rattle.std.specs.Prelude.{◌≡◌, slice_get};
ghost use Rattle.std.specs.Option.{option_copied};
ghost use Rattle.csm_batch.specs.Batches.{IsBatch, IsSized};

use crate::entry::Entry;
use std::marker::Model;
use x_base::Text;

/// A batch: the text from which it was read, and its entries.
#[derive(Drop)]
pub struct Batch {
    text: Text,
    entries: Vec<Entry>,
}

impl Model for Batch {
    ghost use Rattle.std.specs.Prelude.{ℕ, List};
    ghost use Rattle.csm_batch.specs.declared.entry.Entry.{Entry};
    ghost use Rattle.csm_batch.specs.Batches.{IsBatch, IsSized};

    ghost Value = { List ℕ × List Entry };

    ghost view = { λ b. (b.text, b.entries.items) };

    ghost invariant = { λ b. IsBatch b.text b.entries.items × IsSized b.text b.entries.items };
}

impl Batch {
    /// A batch of its text and the entries that the text writes.
    pub(crate) fn new(text: Text, entries: Vec<Entry>) -> Batch
        requires batch { IsBatch text entries.items }
        requires sized { IsSized text entries.items }
        ensures { result ≡ (text, entries.items) }
    {
        Batch { text, entries }
    }

    /// The bytes from which it was read, at most 1,048,576.
    pub fn bytes(&self) -> &[u8]
        ensures bytes { result.now ≡ self.now.0 }
        ensures batch { IsBatch self.now.0 self.now.1 }
        ensures sized { IsSized self.now.0 self.now.1 }
    {
        self.text.bytes()
    }

    /// The entries in their order, at most 2,048.
    pub fn entries(&self) -> &[Entry]
        ensures entries { result.now ≡ self.now.1 }
        ensures batch { IsBatch self.now.0 self.now.1 }
        ensures sized { IsSized self.now.0 self.now.1 }
    {
        self.entries.as_slice()
    }

    /// Entry `i`, from 0, and `None` exactly where there is no such entry.
    pub fn entry(&self, i: usize) -> Option<&Entry>
        ensures entry { option_copied result ≡ slice_get self.now.1 i }
        ensures batch { IsBatch self.now.0 self.now.1 }
        ensures sized { IsSized self.now.0 self.now.1 }
    {
        self.entries.get(i)
    }
}
