// What doesn't count of a journal's file is overwritten with zeros.
ghost use Rattle.std.specs.Prelude.{◌+◌, ◌≤◌, replicate};
ghost use Rattle.x_disk.specs.Calls.{IsWriting};
ghost use Rattle.x_disk.specs.Disk.{disk_size};
ghost use Rattle.key_journal.specs.States.{IsReady};
ghost use Rattle.key_journal.specs.Wiping.{IsCleared, IsClearedFile};

use crate::area::other_start;
use crate::layout::AREA_SIZE;
use x_disk::{Disk, DiskErr};

// As many zeros as are written at once.
const ZEROS: [u8; 65536] = [0; 65536];

// Writes so many zeros.
fn put_zeros<D: Disk>(disk: &mut D, at: u64, count: u64) -> Result<(), DiskErr>
    requires within { at + count ≤ disk_size }
    requires few { count ≤ 65536 }
    ensures { IsWriting at (replicate count 0) (D.told disk.old) (D.told disk.new) result }
{
    disk.write_at(at, &ZEROS[..count as usize])
}

/// Writes zeros from one place up to another, and syncs.
fn clear<D: Disk>(disk: &mut D, from: u64, to: u64) -> Result<(), DiskErr>
    requires order { from ≤ to }
    requires within { to ≤ disk_size }
    ensures { IsCleared from to (D.told disk.old) (D.told disk.new) result }
{
    let mut at = from;
    'clearing: while at < to {
        let count = (to - at).min(ZEROS.len() as u64);
        put_zeros(disk, at, count)?;
        at += count;
    }
    disk.sync()
}

/// Writes zeros into the other area, and behind the last gate of the selected one, as far as the file reaches.
pub(crate) fn clear_idle<D: Disk>(disk: &mut D, gate: u64, end: u64) -> Result<(), DiskErr>
    requires { IsReady (D.told disk.old) gate end }
    ensures { IsClearedFile (D.told disk.old) (D.told disk.new) result }
{
    let size = disk.length()?;
    let start = other_start(end);
    clear(disk, size.min(start), size.min(start + AREA_SIZE))?;
    clear(disk, size.min(gate + 1), size.min(end))
}
