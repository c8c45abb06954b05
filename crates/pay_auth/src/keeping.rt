// An entry is kept, and then its text handed out.
ghost use Rattle.std.specs.Prelude.{◌≡◌, ◌≤◌, false, [], List, length, IfOk, IfErr};
ghost use Rattle.journal_state.specs.Keeping.{IsFrameOf};
ghost use Rattle.pay_auth.specs.declared.entry.Entry.{Entry as TheEntry};
ghost use Rattle.pay_auth.specs.Entries.{entry_key, put_entry, is_full_for, most_entries};
ghost use Rattle.pay_auth.specs.Bodies.{PutsBody};
ghost use Rattle.pay_auth.specs.Turns.{IsSwitchedTurn, IsKeptTurn};

use crate::body::{entries_behind, entry_behind};
use crate::entries::Entries;
use crate::entry::Entry;
use crate::ledger::Ledger;
use crate::turn::PayTurn;
use journal_state::{Judge, Standing};
use key_journal::{Broken, close_frame};
use std::alloc::Global;
use x_base::{NoMemory, Text};
use x_disk::Disk;

/// The frame of the body that puts one entry.
fn entry_frame(alloc: Global, entry: &Entry) -> Result<Text, NoMemory>
    ensures { IfOk result (λ frame. (old : List TheEntry) → is_full_for (entry_key entry.now) old ≡ false → length old ≤ most_entries → IsFrameOf PutsBody frame old (put_entry entry.now old)) }
{
    let mut text = entry_behind(alloc, entry)?;
    close_frame(&mut text)?;
    Ok(text)
}

/// The frame of the body that puts all entries.
fn whole_frame(alloc: Global, entries: &Entries) -> Result<Text, NoMemory>
    ensures { IfOk result (λ frame. IsFrameOf PutsBody frame [] entries.now) }
{
    entries.law_entries();
    let mut text = entries_behind(alloc, entries)?;
    close_frame(&mut text)?;
    Ok(text)
}

/// The frame of a ledger without entries.
pub(crate) fn empty_frame(alloc: Global) -> Result<Text, NoMemory>
    ensures { IfOk result (λ frame. IsFrameOf PutsBody frame [] []) }
{
    whole_frame(alloc, &Entries::start(alloc))
}

/// The entries with this one put, and the frame of the body that puts it alone.
fn prepared(alloc: Global, entries: &Entries, entry: Entry) -> Result<(Entries, Text), NoMemory>
    requires { is_full_for (entry_key entry) entries.now ≡ false }
    ensures next { IfOk result (λ p. p.0 ≡ put_entry entry entries.now) }
    ensures frame { IfOk result (λ p. IsFrameOf PutsBody p.1 entries.now p.0) }
{
    let frame = entry_frame(alloc, &entry)?;
    let mut next = entries.copy(alloc)?;
    next.put(entry)?;
    Ok((next, frame))
}

impl<D: Disk> Ledger<D> {
    /// Keeps an entry for which there is place: as one frame more, or, where that doesn't fit, as one frame of all entries.
    /// Then the text is handed out. All memory is taken before the first disk call.
    pub(crate) fn keep(self, alloc: Global, entry: Entry, out: Text) -> PayTurn<D>
        requires { is_full_for (entry_key entry) self.state ≡ false }
        ensures { IsKeptTurn D.told self entry out result }
    {
        let Ok((next, frame)) = prepared(alloc, self.standing.state(), entry) else {
            return PayTurn::NoMemory(self);
        };
        if !self.standing.fits(frame.bytes().len()) {
            return self.keep_whole(alloc, next, out);
        }
        PayTurn::ended(self.standing.keep(frame.bytes(), next), out)
    }

    /// Switches to these entries as one frame, and hands the text out.
    fn keep_whole(self, alloc: Global, next: Entries, out: Text) -> PayTurn<D>
        ensures { IsSwitchedTurn D.told self next out result }
    {
        let Ok(frame) = whole_frame(alloc, &next) else {
            return PayTurn::NoMemory(self);
        };
        PayTurn::ended(self.standing.replace(frame.bytes(), next), out)
    }
}

impl<D: Disk> PayTurn<D> {
    /// The text is handed out where the ledger stands, and not where the disk failed.
    fn ended(kept: Result<Standing<D, Entries>, Broken<D>>, out: Text) -> PayTurn<D>
        ensures done { IfOk kept (λ s. result ≡ PayTurn.Done s out) }
        ensures broken { IfErr kept (λ b. result ≡ PayTurn.Broken b) }
    {
        match kept {
            Ok(standing) => PayTurn::Done {
                ledger: Ledger { standing },
                out,
            },
            Err(broken) => PayTurn::Broken(broken),
        }
    }
}
