// The record of a disk in memory: what a read gives, what the last power-off left, and all steps.
use crate::image::{apply_rest, copy_from, settle, write_all};
use std::alloc::{AllocError, Global};
use std::marker::Model;
use x_base::NoMemory;

/// How many bytes a disk has room for at least from the start, so that small ones aren't moved while they grow. With
/// more, many small disks would lie far apart.
const LEAST_BYTES: usize = 12_288;

/// For how many steps it has room at least.
const LEAST_STEPS: usize = 256;

/// A step of the record. The bytes of a write lie in the payload, behind those of the writes before it.
#[derive(Clone, Copy, Drop)]
pub(crate) enum Entry {
    Write { at: u32, len: u32 },
    Sync,
    PowerOff { choice: u64 },
}

/// What was done to a disk in memory, and the bytes that came of it. A write only goes into the record: what a read gives
/// is made of it where it is wanted.
#[derive(Drop)]
pub(crate) struct DiskRecord {
    room: usize,
    entries: Vec<Entry>,
    payload: Vec<u8>,
    // the first entry after the last sync or power-off
    first: usize,
    // the length of what a read gives, for which `bytes` has room
    end: usize,
    // what a read gives, as far as the first so many entries were applied, whose bytes are the first of the payload
    bytes: Vec<u8>,
    applied_entries: usize,
    applied_bytes: usize,
    // what the last power-off left, behind so many entries and bytes of the payload; the image of the last sync is made
    // of it only where the power goes
    base: Vec<u8>,
    base_entries: usize,
    base_bytes: usize,
}

impl Model for DiskRecord {
    ghost use Rattle.std.specs.Vec.{vec_capacity};
    ghost use Rattle.x_disk.specs.History.{History};
    ghost use Rattle.x_disk.specs.Record.{steps_of, Represents, IsApplied, HasRoom};

    ghost Value = { History };

    ghost view = { λ d. record { room = d.room; steps = steps_of d.entries.items d.payload.items } };

    ghost invariant = { λ d. Represents d.entries.items d.payload.items d.first d.base.items d.base_entries d.base_bytes
        × IsApplied d.bytes.items d.entries.items d.payload.items d.applied_entries d.applied_bytes d.end
        × HasRoom d.room d.end (vec_capacity d.bytes) (vec_capacity d.payload) (vec_capacity d.entries) };
}

impl DiskRecord {
    ghost use Rattle.std.specs.Prelude.{◌≡◌, ◌+◌, ◌≤◌, [], length, take, drop, IfOk};
    ghost use Rattle.x_disk.specs.Disk.{disk_size};
    ghost use Rattle.x_disk.specs.History.{PowerOff, IsAdded, IsWriteAdded, IsSyncAdded, state_of};

    /// The record of an empty disk. Reserves `room` bytes or more each for what a read gives, for the image of the last sync
    /// and for the bytes of the writes, and places for `room / 16` steps; beyond that it grows.
    pub(crate) fn new(alloc: Global, room: usize) -> Result<DiskRecord, NoMemory>
        ensures { IfOk result (λ d. d ≡ record { room = room; steps = [] }) }
    {
        let bytes = room.max(LEAST_BYTES);
        let steps = (room / 16).max(LEAST_STEPS);
        Ok(DiskRecord {
            room,
            entries: Vec::with_capacity(alloc, steps)?,
            payload: Vec::with_capacity(alloc, bytes)?,
            first: 0,
            end: 0,
            bytes: Vec::with_capacity(alloc, bytes)?,
            applied_entries: 0,
            applied_bytes: 0,
            base: Vec::with_capacity(alloc, room)?,
            base_entries: 0,
            base_bytes: 0,
        })
    }

    /// The number of bytes that a read gives.
    pub(crate) fn length(&self) -> u64
        ensures { result ≡ length (state_of self.now.steps).now }
    {
        self.end as u64
    }

    /// The bytes from this place on, which have to lie within the length.
    pub(crate) fn read(&mut self, at: u64, buf: &mut [u8])
        requires { at + length buf.old ≤ length (state_of self.old.steps).now }
        ensures filled { buf.new ≡ take (length buf.old) (drop at (state_of self.old.steps).now) }
        ensures same { self.new ≡ self.old }
    {
        apply_rest(
            &mut self.bytes,
            &self.entries,
            &self.payload,
            &mut self.applied_entries,
            &mut self.applied_bytes,
        );
        let at = at as usize;
        buf.copy_from_slice(&self.bytes[at..at + buf.len()]);
    }

    pub(crate) fn add_write(&mut self, at: u64, bytes: &[u8]) -> Result<(), AllocError>
        requires { at + length bytes.now ≤ disk_size }
        ensures { IsWriteAdded at bytes.now self.old self.new result }
    {
        let end = self.end.max(at as usize + bytes.len());
        self.bytes.reserve(end - self.bytes.len())?;
        self.entries.reserve(1)?;
        self.payload.extend_from_slice(bytes)?;
        self.entries.push(Entry::Write {
            at: at as u32,
            len: bytes.len() as u32,
        })?;
        self.end = end;
        Ok(())
    }

    pub(crate) fn add_sync(&mut self) -> Result<(), AllocError>
        ensures { IsSyncAdded self.old self.new result }
    {
        self.entries.push(Entry::Sync)?;
        self.first = self.entries.len();
        Ok(())
    }

    // The image of the last sync.
    fn last_synced(&self) -> Result<Vec<u8>, AllocError>
        ensures { IfOk result (λ image. image.items ≡ (state_of self.now.steps).stable) }
    {
        let mut image = Vec::new(*self.base.allocator());
        copy_from(&mut image, &self.base)?;
        write_all(
            &mut image,
            &self.entries[self.base_entries..self.first],
            &self.payload[self.base_bytes..],
        )?;
        Ok(image)
    }

    pub(crate) fn add_power_off(&mut self, choice: u64) -> Result<(), AllocError>
        ensures { IsAdded (PowerOff choice) self.old self.new result }
    {
        let mut left = self.last_synced()?;
        self.entries.reserve(1)?;
        apply_rest(
            &mut self.bytes,
            &self.entries,
            &self.payload,
            &mut self.applied_entries,
            &mut self.applied_bytes,
        );
        settle(
            &mut self.bytes,
            &mut left,
            &self.entries[self.first..],
            choice,
        )?;
        self.entries.push(Entry::PowerOff { choice })?;
        self.first = self.entries.len();
        self.base = left;
        self.base_entries = self.first;
        self.base_bytes = self.payload.len();
        self.end = self.bytes.len();
        self.applied_entries = self.first;
        Ok(())
    }
}
