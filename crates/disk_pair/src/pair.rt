// Two disks of a shelf at once.
ghost use Rattle.std.specs.Prelude.{◌≢◌};
ghost use Rattle.x_disk.specs.Shelf.{shelf_view};
ghost use Rattle.disk_pair.specs.Pairs.{AreFetched, ArePutBack};

use crate::disks::Disks;
use x_base::Ident;
use x_disk::{DiskErr, Shelf};

/// Takes two disks of different names out. Where one can't be taken, both stay.
pub fn fetch_two<H: Shelf>(
    shelf: &mut H,
    first: &Ident,
    second: &Ident,
) -> Result<Disks<H::Disk>, DiskErr>
    requires { first.now ≢ second.now }
    ensures { AreFetched H.Disk.told first.now second.now (shelf_view H.entry H.has_slot H.is_back H.faults shelf.old) (shelf_view H.entry H.has_slot H.is_back H.faults shelf.new) result }
{
    let disk = shelf.fetch(first)?;
    match shelf.fetch(second) {
        Ok(other) => Ok(Disks {
            first: disk,
            second: other,
        }),
        Err(cause) => match shelf.put_back(first, disk) {
            Ok(()) => Err(cause),
            Err(later) => Err(later),
        },
    }
}

/// Puts two disks back, each whatever becomes of the other. The first error is the answer.
pub fn put_back_two<H: Shelf>(
    shelf: &mut H,
    first: &Ident,
    second: &Ident,
    disks: Disks<H::Disk>,
) -> Result<(), DiskErr>
    requires apart { first.now ≢ second.now }
    requires first_slot { H.has_slot shelf.old first.now }
    requires second_slot { H.has_slot shelf.old second.now }
    ensures { ArePutBack H.Disk.told first.now second.now disks (shelf_view H.entry H.has_slot H.is_back H.faults shelf.old) (shelf_view H.entry H.has_slot H.is_back H.faults shelf.new) result }
{
    let one = shelf.put_back(first, disks.first);
    let other = shelf.put_back(second, disks.second);
    one?;
    other
}
