// A disk that fails after so many calls.
ghost use Rattle.std.specs.Prelude.{◌≡◌};

use crate::{Disk, DiskErr};
use std::marker::Model;

#[derive(Clone, Copy, Drop)]
pub(crate) enum Fuse {
    /// So many calls still pass.
    Passes(u64),
    /// One call failed, and so many after it.
    Blown(u64),
}

impl Fuse {
    ghost use Rattle.std.specs.Prelude.{◌≡◌};
    ghost use Rattle.x_disk.specs.Fuse.{is_blown, is_last, IsBurnt};

    /// Whether the next counted call is the one that fails.
    fn is_last(&self) -> bool
        ensures { result ≡ is_last self.now }
    {
        matches!(self, Fuse::Passes(0))
    }

    fn is_blown(&self) -> bool
        ensures { result ≡ is_blown self.now }
    {
        matches!(self, Fuse::Blown(_))
    }

    /// Counts a call, which is made where this answers `Ok`.
    fn burn(&mut self) -> Result<(), DiskErr>
        ensures { IsBurnt self.old self.new result }
    {
        match *self {
            Fuse::Passes(0) => *self = Fuse::Blown(0),
            Fuse::Passes(calls) => {
                *self = Fuse::Passes(calls - 1);
                return Ok(());
            }
            Fuse::Blown(u64::MAX) => return Err(DiskErr::NoMemory),
            Fuse::Blown(calls) => *self = Fuse::Blown(calls + 1),
        }
        Err(DiskErr::Fault)
    }
}

/// A disk whose calls of length, read, write and sync pass as often as was said. The next one answers `Fault`: a write
/// is first made and stays pending, another call does nothing. Every later one does nothing and answers `Fault`, or
/// `NoMemory` once the count of these faults can't rise. A power-off isn't counted.
#[derive(Drop)]
pub struct Fused<D: Disk> {
    disk: D,
    fuse: Fuse,
}

impl<D: Disk> Model for Fused<D> {
    ghost use Rattle.x_disk.specs.Fuse.{WithFuse};

    ghost Value = { WithFuse D };

    ghost view = { λ f. record { disk = f.disk; fuse = f.fuse } };
}

impl<D: Disk> Fused<D> {
    ghost use Rattle.std.specs.Prelude.{◌≡◌};
    ghost use Rattle.x_disk.specs.declared.fused.Fuse.{Fuse};
    ghost use Rattle.x_disk.specs.Fuse.{is_blown};

    /// The disk with a fuse for so many calls. Takes no memory.
    pub fn new(disk: D, calls: u64) -> Fused<D>
        ensures disk { result.disk ≡ disk }
        ensures fuse { result.fuse ≡ Fuse.Passes calls }
    {
        Fused {
            disk,
            fuse: Fuse::Passes(calls),
        }
    }

    /// Whether the fuse has answered in place of a call.
    pub(crate) fn has_blown(&self) -> bool
        ensures { result ≡ is_blown self.now.fuse }
    {
        self.fuse.is_blown()
    }

    /// The disk without its fuse.
    pub fn into_inner(self) -> D
        ensures { result ≡ self.disk }
    {
        self.disk
    }
}

impl<D: Disk> Disk for Fused<D> {
    ghost use Rattle.std.specs.Prelude.{◌≡◌, ◌+◌, ◌≤◌, ℕ, List, length, Some};
    ghost use Rattle.x_disk.specs.Disk.{disk_size};
    ghost use Rattle.x_disk.specs.Calls.{IsMeasured, IsFilled, IsWriting, IsSyncing, IsPowerOff};
    ghost use Rattle.x_disk.specs.Fuse.{IsFusedCall, IsFusedWrite, fused_view, fused_sound};

    ghost told = { fused_view D.told };

    ghost sound = { λ f. fused_sound f.fuse (D.told f.disk) (D.sound f.disk) };

    fn length(&mut self) -> Result<u64, DiskErr>
        ensures call { IsMeasured (fused_view D.told self.old) (fused_view D.told self.new) result }
        ensures fuse { IsFusedCall self.old self.new result }
    {
        self.fuse.burn()?;
        self.disk.length()
    }

    fn read(&mut self, at: u64, buf: &mut [u8]) -> Result<(), DiskErr>
        requires { (b : List ℕ) → (fused_view D.told self.old).now ≡ Some b → at + length buf.old ≤ length b }
        ensures call { IsFilled at buf.old buf.new (fused_view D.told self.old) (fused_view D.told self.new) result }
        ensures fuse { IsFusedCall self.old self.new result }
    {
        self.fuse.burn()?;
        self.disk.read(at, buf)
    }

    fn write_at(&mut self, at: u64, bytes: &[u8]) -> Result<(), DiskErr>
        requires { at + length bytes.now ≤ disk_size }
        ensures call { IsWriting at bytes.now (fused_view D.told self.old) (fused_view D.told self.new) result }
        ensures fuse { IsFusedWrite D.told at bytes.now self.old self.new result }
    {
        let last = self.fuse.is_last();
        match self.fuse.burn() {
            Ok(()) => self.disk.write_at(at, bytes),
            Err(cause) => {
                if last {
                    // It is begun, and nobody hears how it ended.
                    let _ = self.disk.write_at(at, bytes);
                }
                Err(cause)
            }
        }
    }

    fn sync(&mut self) -> Result<(), DiskErr>
        ensures call { IsSyncing (fused_view D.told self.old) (fused_view D.told self.new) result }
        ensures fuse { IsFusedCall self.old self.new result }
    {
        self.fuse.burn()?;
        self.disk.sync()
    }

    fn power_off(&mut self, choice: u64) -> Result<(), DiskErr>
        ensures call { IsPowerOff choice (fused_view D.told self.old) (fused_view D.told self.new) result }
        ensures fuse { self.new.fuse ≡ self.old.fuse }
    {
        self.disk.power_off(choice)
    }
}
