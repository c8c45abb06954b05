// A write that is on the disk when it returns.
ghost use Rattle.std.specs.Prelude.{◌+◌, ◌≤◌, length};
ghost use Rattle.x_disk.specs.Disk.{disk_size};
ghost use Rattle.key_journal.specs.Writing.{IsPut};

use x_disk::{Disk, DiskErr};

/// Writes these bytes and syncs.
pub(crate) fn put<D: Disk>(disk: &mut D, at: u64, bytes: &[u8]) -> Result<(), DiskErr>
    requires { at + length bytes.now ≤ disk_size }
    ensures { IsPut at bytes.now (D.told disk.old) (D.told disk.new) result }
{
    disk.write_at(at, bytes)?;
    disk.sync()
}
