// A disk, and what each of its calls does to what it tells.
ghost use Rattle.std.specs.Prelude.{◌≡◌, ◌+◌, ◌≤◌, List, ℕ, length, Some};
ghost use Rattle.x_disk.specs.declared.disk.DiskErr.TheVariants.{NoMemory};
ghost use Rattle.x_disk.specs.Disk.{View, IsSound, disk_size};
ghost use Rattle.x_disk.specs.Calls.{IsMeasured, IsFilled, IsWriting, IsSyncing, IsPowerOff};

use std::alloc::{AllocError, AllocFailed};
use thiserror::Error;
use x_base::NoMemory;

/// Why a call on a disk or a shelf failed.
#[derive(Clone, Copy, Debug, Error)]
pub enum DiskErr {
    /// The disk failed, and its count of faults rose.
    #[error("disk fault")]
    Fault,
    /// No memory was left, and the disk is as it was.
    #[error("no memory")]
    NoMemory,
}

impl From<AllocError> for DiskErr {
    ghost from_gives = { λ _ e. e ≡ NoMemory };

    fn from(_: AllocError) -> Self {
        DiskErr::NoMemory
    }
}

impl<T: Drop> From<AllocFailed<T>> for DiskErr {
    ghost from_gives = { λ _ e. e ≡ NoMemory };

    fn from(_: AllocFailed<T>) -> Self {
        DiskErr::NoMemory
    }
}

impl From<NoMemory> for DiskErr {
    ghost from_gives = { λ _ e. e ≡ NoMemory };

    fn from(_: NoMemory) -> Self {
        DiskErr::NoMemory
    }
}

/// A disk of at most 16,777,216 bytes. Between two syncs a crash may leave any bytes in each written range and past the
/// length at the last sync, of a length up to the present one; after a sync it leaves what a read gives.
pub trait Disk: Drop {
    // all that the disk tells
    ghost told: { Self → View };

    /// The number of bytes.
    fn length(&mut self) -> Result<u64, DiskErr>
        ensures { IsMeasured (told self.old) (told self.new) result };

    /// Reads the bytes from this place on, which have to lie within the length.
    fn read(&mut self, at: u64, buf: &mut [u8]) -> Result<(), DiskErr>
        requires { (b : List ℕ) → (told self.old).now ≡ Some b → at + length buf.old ≤ length b }
        ensures { IsFilled at buf.old buf.new (told self.old) (told self.new) result };

    /// Writes these bytes over what is there and past the end; a gap before them reads as zeros.
    fn write_at(&mut self, at: u64, bytes: &[u8]) -> Result<(), DiskErr>
        requires { at + length bytes.now ≤ disk_size }
        ensures { IsWriting at bytes.now (told self.old) (told self.new) result };

    /// Makes what a read gives the one image that a crash leaves.
    fn sync(&mut self) -> Result<(), DiskErr>
        ensures { IsSyncing (told self.old) (told self.new) result };

    /// The power goes: one of the images is left as what a read gives, with 0 that of the last sync and with 1 what a
    /// read gave.
    fn power_off(&mut self, choice: u64) -> Result<(), DiskErr>
        ensures { IsPowerOff choice (told self.old) (told self.new) result };

    // what holds of every disk
    ghost sound: { (disk : Self) → IsSound (told disk) };
}
