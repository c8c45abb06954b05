// A shelf of disks, each under an identity.
ghost use Rattle.std.specs.Prelude.{ℕ, List};
ghost use Rattle.x_disk.specs.Disk.{View, IsSound};
ghost use Rattle.x_disk.specs.Shelf.{IsFetched, IsPutBack, shelf_view};

use crate::{Disk, DiskErr};
use x_base::Ident;

/// Disks that are taken out one at a time and put back. The caller holds no two disks of one identity.
pub trait Shelf: Drop {
    type Disk: Disk;

    // what the disk under each identity tells; an identity that isn't there has an empty disk
    ghost entry: { Self → List ℕ → View };

    // the identities whose disk has a place on the shelf
    ghost has_slot: { Self → List ℕ → Type 0 };

    // what a put back that answers `Ok` gives of an identity, and no other clause does: so a caller over any shelf
    // has it of no disk whose put back failed
    ghost is_back: { Self → List ℕ → Type 0 };

    ghost faults: { Self → ℕ };

    /// Takes the disk out, and makes a place for it.
    fn fetch(&mut self, name: &Ident) -> Result<Self::Disk, DiskErr>
        ensures { IsFetched Self.Disk.told name.now (shelf_view entry has_slot is_back faults self.old) (shelf_view entry has_slot is_back faults self.new) result };

    /// Puts the disk there, also after an error where a place is made. The shelf's faults rise where the disk has faults.
    fn put_back(&mut self, name: &Ident, disk: Self::Disk) -> Result<(), DiskErr>
        ensures { IsPutBack (Self.Disk.told disk) name.now (shelf_view entry has_slot is_back faults self.old) (shelf_view entry has_slot is_back faults self.new) result };

    // what holds of every disk on the shelf
    ghost sound: { (shelf : Self) (name : List ℕ) → IsSound (entry shelf name) };
}
