// The area that isn't selected.
ghost use Rattle.std.specs.Prelude.{◌≡◌, ◌+◌, ◌≤◌, length};
ghost use Rattle.x_disk.specs.Disk.{disk_size};
ghost use Rattle.key_journal.specs.States.{other_start, selector_of};
ghost use Rattle.key_journal.specs.Writing.{IsLaidAlone};

use crate::layout::{FIRST_START, SECOND_START};
use crate::put::put;
use x_disk::{Disk, DiskErr};

/// Where the other area begins, by the end of the selected one.
pub(crate) fn other_start(end: u64) -> u64
    ensures { result ≡ other_start end }
{
    if end == SECOND_START {
        SECOND_START
    } else {
        FIRST_START
    }
}

/// The byte that selects the area that begins here.
pub(crate) fn selector_of(start: u64) -> u8
    ensures { result ≡ selector_of start }
{
    if start == SECOND_START { 1 } else { 0 }
}

/// Writes an area with this frame alone, and syncs.
pub(crate) fn lay_alone<D: Disk>(disk: &mut D, start: u64, frame: &[u8]) -> Result<(), DiskErr>
    requires { start + 1 + length frame.now ≤ disk_size }
    ensures { IsLaidAlone start frame.now (D.told disk.old) (D.told disk.new) result }
{
    disk.write_at(start, &[1])?;
    put(disk, start + 1, frame)
}
