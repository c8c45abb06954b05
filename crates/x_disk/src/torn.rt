// A disk in memory that keeps a record of its steps, and that tears what wasn't synced when the power goes.

use crate::disk_record::DiskRecord;
use crate::{Disk, DiskErr};
use std::alloc::{AllocError, Global};
use std::marker::Model;
use x_base::NoMemory;

/// A disk in memory, which tells all and never fails. It is small: what it holds lies behind one box.
#[derive(Drop)]
pub struct TornDisk {
    record: Box<DiskRecord>,
}

impl Model for TornDisk {
    ghost use Rattle.x_disk.specs.History.{History};

    ghost Value = { History };

    ghost view = { λ d. d.record.value };
}

impl TornDisk {
    ghost use Rattle.std.specs.Prelude.{◌≡◌, ◌+◌, ◌≤◌, [], length, IfOk};
    ghost use Rattle.x_disk.specs.Disk.{disk_size};
    ghost use Rattle.x_disk.specs.History.{PowerOff, IsAdded, IsWriteAdded, IsSyncAdded};

    /// An empty disk. Reserves `room` bytes each for what a read gives, for the image of the last sync and for the bytes
    /// in the record, and places for `room / 16` steps; beyond that it grows.
    pub fn new(alloc: Global, room: usize) -> Result<TornDisk, NoMemory>
        ensures { IfOk result (λ d. d ≡ record { room = room; steps = [] }) }
    {
        let record = DiskRecord::new(alloc, room)?;
        let record = Box::new(alloc, record).map_err(AllocError::from)?;
        Ok(TornDisk { record })
    }

    fn add_write(&mut self, at: u64, bytes: &[u8]) -> Result<(), AllocError>
        requires { at + length bytes.now ≤ disk_size }
        ensures { IsWriteAdded at bytes.now self.old self.new result }
    {
        self.record.add_write(at, bytes)
    }

    fn add_sync(&mut self) -> Result<(), AllocError>
        ensures { IsSyncAdded self.old self.new result }
    {
        self.record.add_sync()
    }

    fn add_power_off(&mut self, choice: u64) -> Result<(), AllocError>
        ensures { IsAdded (PowerOff choice) self.old self.new result }
    {
        self.record.add_power_off(choice)
    }
}

impl Disk for TornDisk {
    ghost use Rattle.std.specs.Prelude.{◌≡◌, ◌+◌, ◌≤◌, ℕ, List, length, Some, IsOk};
    ghost use Rattle.x_disk.specs.Disk.{disk_size};
    ghost use Rattle.x_disk.specs.Calls.{IsMeasured, IsFilled, IsWriting, IsSyncing, IsPowerOff};
    ghost use Rattle.x_disk.specs.History.{Write, Sync, PowerOff, IsAdded, view_of};
    ghost use Rattle.x_disk.specs.HistoryLaw.{history_sound};

    ghost told = { view_of };

    ghost sound = { history_sound };

    fn length(&mut self) -> Result<u64, DiskErr>
        ensures call { IsMeasured (view_of self.old) (view_of self.new) result }
        ensures answers { IsOk result }
        ensures same { self.new ≡ self.old }
    {
        Ok(self.record.length())
    }

    fn read(&mut self, at: u64, buf: &mut [u8]) -> Result<(), DiskErr>
        requires { (b : List ℕ) → (view_of self.old).now ≡ Some b → at + length buf.old ≤ length b }
        ensures call { IsFilled at buf.old buf.new (view_of self.old) (view_of self.new) result }
        ensures answers { IsOk result }
        ensures same { self.new ≡ self.old }
    {
        self.record.read(at, buf);
        Ok(())
    }

    fn write_at(&mut self, at: u64, bytes: &[u8]) -> Result<(), DiskErr>
        requires { at + length bytes.now ≤ disk_size }
        ensures call { IsWriting at bytes.now (view_of self.old) (view_of self.new) result }
        ensures added { IsAdded (Write at bytes.now) self.old self.new result }
    {
        self.add_write(at, bytes)?;
        Ok(())
    }

    fn sync(&mut self) -> Result<(), DiskErr>
        ensures call { IsSyncing (view_of self.old) (view_of self.new) result }
        ensures added { IsAdded Sync self.old self.new result }
    {
        self.add_sync()?;
        Ok(())
    }

    fn power_off(&mut self, choice: u64) -> Result<(), DiskErr>
        ensures call { IsPowerOff choice (view_of self.old) (view_of self.new) result }
        ensures added { IsAdded (PowerOff choice) self.old self.new result }
    {
        self.add_power_off(choice)?;
        Ok(())
    }
}
