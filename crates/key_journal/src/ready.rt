// A journal that takes frames: at rest, and with a frame that doesn't count yet.
ghost use Rattle.std.specs.Prelude.{◌≡◌, ◌+◌, ◌-◌, ◌≤◌, length, IsTrue, ◌↔◌};
ghost use Rattle.x_disk.specs.Disk.{IsDurable};
ghost use Rattle.x_disk.specs.Fuse.{IsFusedView, fused_view};
ghost use Rattle.key_journal.specs.States.{IsFrame, HasRoom};
ghost use Rattle.key_journal.specs.Wiping.{IsWipe};
ghost use Rattle.key_journal.specs.Writing.{IsStaging, IsSwitch, IsCommit};

use crate::Broken;
use crate::area::{lay_alone, other_start, selector_of};
use crate::layout::AREA_SIZE;
use crate::put::put;
use crate::wipe::clear_idle;
use std::marker::Model;
use x_disk::{Disk, DiskErr, Fused};

/// A journal at rest: its last gate is closed, and all of it is on the disk.
#[derive(Drop)]
pub struct Ready<D: Disk> {
    disk: D,
    gate: u64,
    end: u64,
}

impl<D: Disk> Model for Ready<D> {
    ghost use Rattle.key_journal.specs.States.{Site, IsReady};

    ghost Value = { Site D };

    ghost view = { λ s. record { disk = s.disk; gate = s.gate; end = s.end } };

    ghost invariant = { λ s. IsReady (D.told s.disk) s.gate s.end };
}

/// A journal with a frame behind its closed gate, where it doesn't count yet.
#[derive(Drop)]
pub struct Staged<D: Disk> {
    disk: D,
    gate: u64,
    next: u64,
    end: u64,
}

impl<D: Disk> Model for Staged<D> {
    ghost use Rattle.key_journal.specs.States.{Pending, IsStaged};

    ghost Value = { Pending D };

    ghost view = { λ s. record { disk = s.disk; gate = s.gate; next = s.next; end = s.end } };

    ghost invariant = { λ s. IsStaged (D.told s.disk) s.gate s.next s.end };
}

impl<D: Disk> Ready<D> {
    ghost use Rattle.key_journal.specs.States.{IsReady};

    pub(crate) fn new(disk: D, gate: u64, end: u64) -> Ready<D>
        requires { IsReady (D.told disk) gate end }
        ensures made { result ≡ record { disk = disk; gate = gate; end = end } }
        ensures room { HasRoom (D.told result.disk) result.gate result.end }
    {
        Ready { disk, gate, end }
    }

    /// Whether a frame whose text has this length fits below the area's end.
    pub fn fits(&self, frame_len: usize) -> bool
        ensures { IsTrue result ↔ (self.now.gate + 1 + frame_len ≤ self.now.end) }
    {
        frame_len as u64 <= self.end - self.gate - 1
    }

    /// The disk.
    pub fn into_disk(self) -> D
        ensures disk { result ≡ self.disk }
        ensures durable { IsDurable (D.told result) }
    {
        self.disk
    }

    /// The same journal over a disk that fails after so many calls. Makes no disk call and takes no memory.
    pub fn fuse(self, calls: u64) -> Ready<Fused<D>>
        ensures fused { IsFusedView calls (D.told self.disk) (fused_view D.told result.disk) }
        ensures place { (result.gate ≡ self.gate) × (result.end ≡ self.end) }
    {
        let Ready { disk, gate, end } = self;
        Ready {
            disk: Fused::new(disk, calls),
            gate,
            end,
        }
    }

    /// Writes a frame behind the closed gate, where it doesn't count yet, and syncs. Takes no memory itself.
    pub fn stage(self, frame: &[u8]) -> Result<Staged<D>, Broken<D>>
        requires fits { self.gate + 1 + length frame.now ≤ self.end }
        requires frame { IsFrame frame.now }
        ensures { IsStaging D.told self frame.now result }
    {
        let Ready {
            mut disk,
            gate,
            end,
        } = self;
        match put(&mut disk, gate + 1, frame) {
            Ok(()) => Ok(Staged {
                disk,
                gate,
                next: gate + frame.len() as u64,
                end,
            }),
            Err(cause) => Err(Broken { disk, cause }),
        }
    }

    /// What is left of the area, with the closed gate.
    pub fn room(&self) -> u64
        ensures { result ≡ self.now.end - self.now.gate }
    {
        self.end - self.gate
    }

    /// Writes the other area with this frame alone, syncs, selects that area, and syncs: from `Ok` on, its body is the only
    /// one. Makes five disk calls and takes no memory itself.
    pub fn switch(self, frame: &[u8]) -> Result<Ready<D>, Broken<D>>
        requires { IsFrame frame.now }
        ensures { IsSwitch D.told self frame.now result }
    {
        let Ready { mut disk, end, .. } = self;
        let start = other_start(end);
        match lay_alone(&mut disk, start, frame) {
            Ok(()) => {}
            Err(cause) => return Err(Broken { disk, cause }),
        }
        match put(&mut disk, 1, &[selector_of(start)]) {
            Ok(()) => Ok(Ready {
                disk,
                gate: start + frame.len() as u64,
                end: start + AREA_SIZE,
            }),
            Err(cause) => Err(Broken { disk, cause }),
        }
    }

    /// Overwrites with zeros each byte of the file that doesn't count: the other area, and what lies behind the last gate
    /// of the selected one. The file keeps its length, and a crash leaves the bytes that count. Takes no memory itself.
    pub fn wipe(self) -> Result<Ready<D>, Broken<D>>
        ensures { IsWipe D.told self result }
    {
        let Ready {
            mut disk,
            gate,
            end,
        } = self;
        match clear_idle(&mut disk, gate, end) {
            Ok(()) => Ok(Ready { disk, gate, end }),
            Err(cause) => Err(Broken { disk, cause }),
        }
    }
}

impl<D: Disk> Staged<D> {
    /// Opens the gate and syncs: from `Ok` on, the new body counts. Takes no memory itself.
    pub fn commit(self) -> Result<Ready<D>, Broken<D>>
        ensures { IsCommit D.told self result }
    {
        let Staged {
            mut disk,
            gate,
            next,
            end,
        } = self;
        match put(&mut disk, gate, &[1]) {
            Ok(()) => Ok(Ready {
                disk,
                gate: next,
                end,
            }),
            Err(cause) => Err(Broken { disk, cause }),
        }
    }
}
