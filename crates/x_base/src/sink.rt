ghost use Rattle.std.specs.Prelude.{◌≡◌, ◌≤◌, ℕ, List, [], Option, Some, None, length, IfOk, OnOk, OnErr};
ghost use Rattle.x_base.specs.Edge.{Rose, AppendsTo, WrotePrefix, IsPut};
ghost use Rattle.x_base.specs.Memory.{IsPutOf};

use crate::due::is_due;
use crate::text::NoMemory;
use std::alloc::Global;
use std::io::Write;
use std::marker::Model;
use thiserror::Error;

/// A sink failed, and its count of faults rose.
#[derive(Clone, Copy, Debug, Error)]
#[error("write fault")]
pub struct SinkFault;

/// Where the program's output goes.
pub trait Sink {
    // what was written, where the sink shows it
    ghost written: { Self → Option (List ℕ) };

    // a number that never falls
    ghost faults: { Self → ℕ };

    /// Appends a prefix of the piece, and answers its length; of a piece that isn't empty at least
    /// one byte.
    fn put(&mut self, piece: &[u8]) -> Result<usize, SinkFault>
        ensures { IsPut piece.now result (written self.old) (written self.new) (faults self.old) (faults self.new) };
}

/// A sink in memory of a fixed size, which shows what was written. It fails at the calls that it is
/// made with, and where no room is left.
#[derive(Drop)]
pub struct MemorySink {
    bytes: Vec<u8>,
    room: usize,
    fails: Vec<u32>,
    calls: u64,
    faults: u64,
}

impl Model for MemorySink {
    ghost use Rattle.std.specs.Prelude.{◌≤◌, vec_len, vec_capacity};
    ghost use Rattle.x_base.specs.Memory.{SinkState};

    ghost Value = { SinkState };

    ghost view = { λ s. record { written = s.bytes.items; room = s.room; fails = s.fails.items; calls = s.calls; faults = s.faults } };

    ghost invariant = { λ s. (vec_len s.bytes ≤ s.room) × (s.room ≤ vec_capacity s.bytes) };
}

impl MemorySink {
    /// A sink for at most `room` bytes, which it reserves here. It fails at the calls whose numbers,
    /// from 1, are in `fails`.
    pub fn new(alloc: Global, room: usize, fails: Vec<u32>) -> Result<MemorySink, NoMemory>
        ensures { IfOk result (λ s. s ≡ record { written = []; room = room; fails = fails.items; calls = 0; faults = 0 }) }
    {
        let bytes = Vec::with_capacity(alloc, room)?;
        Ok(MemorySink {
            bytes,
            room,
            fails,
            calls: 0,
            faults: 0,
        })
    }

    /// What was written.
    pub fn bytes(&self) -> &[u8]
        ensures { result.now ≡ self.now.written }
    {
        self.bytes.as_slice()
    }
}

impl Sink for MemorySink {
    ghost written = { λ s. Some s.written };

    ghost faults = { λ s. s.faults };

    // The first clause is the trait's.
    fn put(&mut self, piece: &[u8]) -> Result<usize, SinkFault>
        ensures put { IsPut piece.now result (Some self.old.written) (Some self.new.written) self.old.faults self.new.faults }
        ensures memory { IsPutOf self.old self.new (length piece.now) result }
    {
        self.calls = self.calls.saturating_add(1);
        let call = self.calls;
        let n = piece.len().min(self.room - self.bytes.len());
        let due = is_due(self.fails.as_slice(), call);
        if due || (n == 0 && !piece.is_empty()) {
            self.faults = self.faults.saturating_add(1);
            return Err(SinkFault);
        }
        match self.bytes.extend_from_slice(&piece[..n]) {
            Ok(()) => Ok(n),
            Err(_) => unreachable!(),
        }
    }
}

/// A sink over a writer of std, which shows no bytes: the trusted edge. A writer that takes nothing
/// of a piece is a fault.
#[derive(Drop)]
pub struct StdSink<W> {
    writer: W,
    faults: u64,
}

impl<W: Write> StdSink<W> {
    /// A sink over this writer, without faults so far.
    pub fn new(writer: W) -> StdSink<W>
        ensures { ⟦<StdSink<W> as Sink>⟧.faults result ≡ 0 }
    {
        StdSink { writer, faults: 0 }
    }
}

impl<W: Write> Sink for StdSink<W> {
    ghost written = { λ _. None };

    ghost faults = { λ s. s.faults };

    fn put(&mut self, piece: &[u8]) -> Result<usize, SinkFault> {
        match self.writer.write(piece) {
            Ok(0) if !piece.is_empty() => {
                self.faults = self.faults.saturating_add(1);
                Err(SinkFault)
            }
            Ok(n) => Ok(n),
            Err(_) => {
                self.faults = self.faults.saturating_add(1);
                Err(SinkFault)
            }
        }
    }
}

/// Puts the whole text.
pub fn put_all<K: Sink>(sink: &mut K, text: &[u8]) -> Result<(), SinkFault>
    ensures whole { OnOk result (AppendsTo (K.written sink.old) (K.written sink.new) text.now) }
    ensures part { OnErr result (WrotePrefix (K.written sink.old) (K.written sink.new) text.now) }
    ensures fault { OnErr result (Rose (K.faults sink.old) (K.faults sink.new)) }
    ensures later { K.faults sink.old ≤ K.faults sink.new }
{
    let mut at = 0;
    while at < text.len() {
        let n = sink.put(&text[at..])?;
        at += n;
    }
    Ok(())
}
