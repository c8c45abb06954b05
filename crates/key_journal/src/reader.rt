// Reading a file through a window of a few thousand bytes.
ghost use Rattle.std.specs.Prelude.{◌≡◌, ◌+◌, ◌-◌, ◌≤◌, ◌∷◌, min, List, ℕ, length, take, drop, Some, OnOk, IfOk};
ghost use Rattle.x_disk.specs.Disk.{IsStill, disk_size};
ghost use Rattle.key_journal.specs.Journal.{four_bytes};
ghost use Rattle.key_journal.specs.Judged.{judged_at, IsSized, IfBody};
ghost use Rattle.key_journal.specs.Opening.{KeepsFile};
ghost use Rattle.key_journal.specs.States.{HasFaults};

use crate::judge::{Judged, judge};
use std::alloc::Global;
use std::marker::Model;
use x_base::Text;
use x_disk::{Disk, DiskErr};

const WINDOW: usize = 4096;

/// A disk whose file doesn't change, and some of its bytes.
#[derive(Drop)]
pub(crate) struct Reader<D: Disk> {
    disk: D,
    size: u64,
    from: u64,
    held: usize,
    buffer: [u8; WINDOW],
}

impl<D: Disk> Model for Reader<D> {
    ghost use Rattle.key_journal.specs.Opening.{Window, IsWindow};

    ghost Value = { Window D };

    ghost view = { λ r. record { disk = r.disk; size = r.size; from = r.from; held = r.held } };

    ghost invariant = { λ r. IsWindow (D.told r.disk) r.size r.from r.held r.buffer };
}

// Reads so many bytes into the front of the buffer.
fn read_front<D: Disk>(disk: &mut D, at: u64, buffer: &mut [u8], held: usize) -> Result<(), DiskErr>
    requires buffer { held ≤ length buffer.old }
    requires within { (b : List ℕ) → (D.told disk.old).now ≡ Some b → at + held ≤ length b }
    ensures bytes { OnOk result ((b : List ℕ) → (D.told disk.old).now ≡ Some b → take held buffer.new ≡ take held (drop at b)) }
    ensures still { IsStill (D.told disk.old) (D.told disk.new) }
    ensures cause { HasFaults (D.told disk.old) (D.told disk.new) result }
{
    disk.read(at, &mut buffer[..held])
}

impl<D: Disk> Reader<D> {
    /// A reader of a file of this length.
    pub(crate) fn new(disk: D, size: u64) -> Reader<D>
        requires { (b : List ℕ) → (D.told disk).now ≡ Some b → size ≡ length b }
        ensures disk { result.disk ≡ disk }
        ensures size { result.size ≡ size }
    {
        Reader {
            disk,
            size,
            from: 0,
            held: 0,
            buffer: [0; WINDOW],
        }
    }

    pub(crate) fn size(&self) -> u64
        ensures { result ≡ self.now.size }
    {
        self.size
    }

    pub(crate) fn into_disk(self) -> D
        ensures { result ≡ self.disk }
    {
        self.disk
    }

    /// Makes the window begin at or before this place and hold that many bytes from there on, or all to the file's end.
    pub(crate) fn hold(&mut self, at: u64, wanted: u64) -> Result<(), DiskErr>
        requires at { at ≤ self.old.size }
        requires wanted { wanted ≤ 4096 }
        ensures from { OnOk result (self.new.from ≤ at) }
        ensures held { OnOk result (at + min wanted (self.new.size - at) ≤ self.new.from + self.new.held) }
        ensures file { KeepsFile D.told self.old self.new result }
    {
        let needed = wanted.min(self.size - at);
        if self.from <= at && at + needed <= self.from + self.held as u64 {
            return Ok(());
        }
        self.fill(at)
    }

    // Reads as much as the window takes, from this place on.
    fn fill(&mut self, at: u64) -> Result<(), DiskErr>
        requires { at ≤ self.old.size }
        ensures from { OnOk result (self.new.from ≡ at) }
        ensures held { OnOk result (self.new.held ≡ min (self.new.size - at) 4096) }
        ensures file { KeepsFile D.told self.old self.new result }
    {
        let held = (self.size - at).min(WINDOW as u64) as usize;
        self.held = 0;
        read_front(&mut self.disk, at, &mut self.buffer, held)?;
        self.from = at;
        self.held = held;
        Ok(())
    }

    /// What the window holds from this place on.
    pub(crate) fn window(&self, at: u64) -> &[u8]
        requires from { self.now.from ≤ at }
        requires held { at ≤ self.now.from + self.now.held }
        ensures length { length result.now + at ≡ self.now.from + self.now.held }
        ensures bytes { (b : List ℕ) → (D.told self.now.disk).now ≡ Some b → result.now ≡ take (length result.now) (drop at b) }
    {
        &self.buffer[(at - self.from) as usize..self.held]
    }

    /// What lies at the gate of an area that ends at this place.
    pub(crate) fn judge_at(&mut self, gate: u64, end: u64) -> Result<Judged, DiskErr>
        requires { gate ≤ disk_size }
        ensures value { IfOk result (λ j. (b : List ℕ) → (D.told self.old.disk).now ≡ Some b → j ≡ judged_at b gate end) }
        ensures sized { IfOk result (λ j. IfBody j (λ n. IsSized gate end self.old.size n)) }
        ensures bytes { IfOk result (λ j. IfBody j (λ n. (b : List ℕ) → (D.told self.old.disk).now ≡ Some b → take 5 (drop gate b) ≡ 1 ∷ four_bytes n)) }
        ensures file { KeepsFile D.told self.old self.new result }
    {
        if self.size <= gate {
            return Ok(Judged::Closed);
        }
        self.hold(gate, 5)?;
        Ok(judge(self.window(gate), gate, end, self.size))
    }

    /// The `n` bytes from this place on.
    pub(crate) fn body(&mut self, alloc: Global, at: u64, n: u64) -> Result<Text, DiskErr>
        requires within { at + n ≤ self.old.size }
        requires small { at + n ≤ disk_size }
        ensures length { IfOk result (λ t. length t ≡ n) }
        ensures bytes { IfOk result (λ t. (b : List ℕ) → (D.told self.old.disk).now ≡ Some b → t ≡ take n (drop at b)) }
        ensures file { KeepsFile D.told self.old self.new result }
    {
        let mut text = Text::new(alloc);
        let mut done = 0;
        'reading: while done < n {
            self.hold(at + done, 1)?;
            let piece = self.window(at + done);
            let len = (piece.len() as u64).min(n - done);
            text.push(&piece[..len as usize])?;
            done += len;
        }
        Ok(text)
    }
}
