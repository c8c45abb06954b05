// How a batch is read.
ghost use Rattle.std.specs.Prelude.{◌≡◌, ◌&&◌, ◌++◌, ◌∷◌, [], ℕ, true, is_some, nat_lt, nat_le, IfOk, IfErr, OnOk};
ghost use Rattle.x_values.specs.Words.{number_of};
ghost use Rattle.scenario.specs.Kinds.{bytes_of};
ghost use Rattle.csm_batch.specs.Batches.{IsBatch, IsFirstBad, IsReading, IsSized, entry_of, entry_with, entries_in};

use crate::batch::Batch;
use crate::entry::Entry;
use crate::fault::BatchFault;
use scenario::{decoded, first_row, first_word, one};
use std::alloc::Global;
use x_base::{NoMemory, Text};
use x_values::read_decimal_number;

/// How many lines a batch may have.
const MOST_LINES: u32 = 2_048;

/// How many bytes a batch may have.
const MOST_BYTES: usize = 1_048_576;

/// The entry of these words.
fn entry_with(alloc: Global, moment: &[u8], digits: &[u8]) -> Result<Option<Entry>, NoMemory>
    ensures { IfOk result (λ entry. entry ≡ entry_with (number_of moment.now) (bytes_of digits.now)) }
{
    let Some(moment) = read_decimal_number(moment) else {
        return Ok(None);
    };
    match decoded(alloc, digits)? {
        Some(bytes) => Ok(Some(Entry { moment, bytes })),
        None => Ok(None),
    }
}

/// The entry that a line writes, without its line feed.
fn read_entry(alloc: Global, line: &[u8]) -> Result<Option<Entry>, NoMemory>
    ensures { IfOk result (λ entry. entry ≡ entry_of line.now) }
{
    let (moment, rest) = first_word(line);
    match one(rest) {
        Some(digits) => entry_with(alloc, moment, digits),
        None => Ok(None),
    }
}

fn is_within(lines: u32, bytes: usize) -> bool
    ensures { result ≡ (nat_lt lines 2048 && nat_le bytes 1048576) }
{
    lines < MOST_LINES && bytes <= MOST_BYTES
}

fn push_entry(entries: &mut Vec<Entry>, entry: Entry) -> Result<(), NoMemory>
    ensures { OnOk result (entries.new.items ≡ entries.old.items ++ entry ∷ []) }
{
    match entries.push(entry) {
        Ok(()) => Ok(()),
        Err(_) => Err(NoMemory),
    }
}

/// Takes the next line, with which so many bytes are taken, behind so many lines, and tells whether it is good.
fn take(
    entries: &mut Vec<Entry>,
    alloc: Global,
    line: &[u8],
    ended: bool,
    lines: u32,
    taken: usize,
) -> Result<bool, NoMemory>
    ensures told { IfOk result (λ good. good ≡ ((nat_lt lines 2048 && nat_le taken 1048576) && (ended && is_some (entry_of line.now)))) }
    ensures entries { IfOk result (λ good. good ≡ true → entries.new.items ≡ entries.old.items ++ entries_in (record { line = line.now; ended = ended } ∷ [])) }
{
    if !is_within(lines, taken) || !ended {
        return Ok(false);
    }
    match read_entry(alloc, line)? {
        Some(entry) => {
            push_entry(entries, entry)?;
            Ok(true)
        }
        None => Ok(false),
    }
}

/// The entries of the bytes.
fn read_entries(alloc: Global, bytes: &[u8]) -> Result<Vec<Entry>, BatchFault>
    ensures good { IfOk result (λ entries. IsBatch bytes.now entries.items) }
    ensures sized { IfOk result (λ entries. IsSized bytes.now entries.items) }
    ensures bad { IfErr result (λ f. (number : ℕ) → f ≡ BatchFault.BadLine number → IsFirstBad bytes.now number) }
{
    let mut entries: Vec<Entry> = Vec::new(alloc);
    let mut lines: u32 = 0;
    let mut rest = bytes;
    while !rest.is_empty() {
        let (line, ended, behind) = first_row(rest);
        let taken = bytes.len() - behind.len();
        match take(&mut entries, alloc, line, ended, lines, taken) {
            Ok(true) => {}
            Ok(false) => return Err(BatchFault::BadLine(lines + 1)),
            Err(NoMemory) => return Err(BatchFault::NoMemory),
        }
        lines += 1;
        rest = behind;
    }
    Ok(entries)
}

impl Batch {
    /// Reads the batch that is all of the bytes, or tells the first line outside the grammar.
    pub fn read(alloc: Global, bytes: &[u8]) -> Result<Batch, BatchFault>
        ensures reading { IsReading bytes.now result }
        ensures sized { IfOk result (λ batch. IsSized batch.0 batch.1) }
    {
        let entries = read_entries(alloc, bytes)?;
        let mut text = Text::with_capacity(alloc, bytes.len())?;
        text.push(bytes)?;
        Ok(Batch::new(text, entries))
    }
}
