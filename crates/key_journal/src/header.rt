// The first sixteen bytes of a journal's file.
ghost use Rattle.std.specs.Prelude.{◌≡◌, ◌⊎◌, ◌≤◌, List, ℕ, length, Some, OnOk, IfOk, IfSome};
ghost use Rattle.key_journal.specs.Layout.{second_start, first_start};
ghost use Rattle.x_disk.specs.Disk.{IsDurable, LeavesOnly, LeavesNoMore};
ghost use Rattle.key_journal.specs.Journal.{is_blank, has_magic, start};
ghost use Rattle.key_journal.specs.Opening.{IsHeaderOf, refusal_of};
ghost use Rattle.key_journal.specs.States.{HasFaults};

use crate::Cause;
use crate::layout::{FIRST_START, SECOND_START};
use x_disk::{Disk, DiskErr};

const MAGIC: [u8; 14] = *b"X917-KEYSTORE1";

/// The file's length and its first sixteen bytes, or as many as there are.
#[derive(Clone, Copy)]
pub(crate) struct Header {
    pub length: u64,
    pub bytes: [u8; 16],
}

/// Syncs the disk and reads its header.
pub(crate) fn look<D: Disk>(disk: &mut D) -> Result<Header, DiskErr>
    ensures header { IfOk result (λ h. (b : List ℕ) → (D.told disk.old).now ≡ Some b → IsHeaderOf h.length h.bytes b) }
    ensures durable { OnOk result (IsDurable (D.told disk.new)) }
    ensures now { (D.told disk.new).now ≡ (D.told disk.old).now }
    ensures images { LeavesNoMore (D.told disk.old) (D.told disk.new) }
    ensures any_moment { LeavesOnly (D.told disk.old) (D.told disk.new) (D.told disk.old).may_leave }
    ensures cause { HasFaults (D.told disk.old) (D.told disk.new) result }
{
    disk.sync()?;
    let length = disk.length()?;
    let mut bytes = [0; 16];
    let held = length.min(16) as usize;
    disk.read(0, &mut bytes[..held])?;
    Ok(Header { length, bytes })
}

impl Header {
    /// Whether no journal stands on the disk.
    pub(crate) fn is_blank(&self) -> bool
        ensures { (b : List ℕ) → IsHeaderOf self.now.length self.now.bytes b → result ≡ is_blank b }
    {
        self.length <= 1 || self.bytes[0] != 1
    }

    fn has_magic(&self) -> bool
        ensures { (b : List ℕ) → IsHeaderOf self.now.length self.now.bytes b → result ≡ has_magic b }
    {
        self.length >= 16 && self.bytes[2..] == MAGIC[..]
    }

    /// Why the journal can't be opened.
    pub(crate) fn refusal(&self) -> Option<Cause>
        ensures names { IfSome result (λ c. (c ≡ Cause.Blank) ⊎ (c ≡ Cause.Damaged 2)) }
        ensures value { (b : List ℕ) → IsHeaderOf self.now.length self.now.bytes b → result ≡ refusal_of b }
    {
        if self.is_blank() {
            Some(Cause::Blank)
        } else if !self.has_magic() {
            Some(Cause::Damaged(2))
        } else {
            None
        }
    }

    /// Where the selected area begins.
    pub(crate) fn start(&self) -> u64
        ensures bounds { (result ≡ first_start) ⊎ (result ≡ second_start) }
        ensures start { (b : List ℕ) → IsHeaderOf self.now.length self.now.bytes b → 2 ≤ length b → result ≡ start b }
    {
        if self.bytes[1] == 1 {
            SECOND_START
        } else {
            FIRST_START
        }
    }
}
