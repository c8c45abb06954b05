ghost use Rattle.std.specs.Prelude.{◌≡◌, ◌<◌, ℕ, List, Option, Some, None, length};
ghost use Rattle.x_base.specs.Edge.{IsTake};
ghost use Rattle.x_base.specs.Memory.{IsTakeOf};

use crate::due::is_due;
use crate::text::Text;
use std::io::Read;
use std::marker::Model;
use thiserror::Error;

/// A source failed, and its count of faults rose.
#[derive(Clone, Copy, Debug, Error)]
#[error("read fault")]
pub struct SourceFault;

/// Where the program's input comes from.
pub trait Source {
    // the bytes not yet taken, where the source shows them
    ghost left: { Self → Option (List ℕ) };

    // a number that never falls
    ghost faults: { Self → ℕ };

    /// Moves bytes from the front of what is left into the buffer, and answers how many; 0 only at
    /// the end.
    fn take(&mut self, buf: &mut [u8]) -> Result<usize, SourceFault>
        requires { 0 < length buf.old }
        ensures { IsTake buf.new result (left self.old) (left self.new) (faults self.old) (faults self.new) };
}

/// A source of bytes in memory, which it shows. It fails at the calls that it is made with.
#[derive(Drop)]
pub struct MemorySource {
    bytes: Text,
    at: usize,
    fails: Vec<u32>,
    calls: u64,
    faults: u64,
}

impl Model for MemorySource {
    ghost use Rattle.std.specs.Prelude.{◌≤◌, length, drop};
    ghost use Rattle.x_base.specs.Memory.{SourceState};

    ghost Value = { SourceState };

    ghost view = { λ s. record { left = drop s.at s.bytes; fails = s.fails.items; calls = s.calls; faults = s.faults } };

    ghost invariant = { λ s. s.at ≤ length s.bytes };
}

impl MemorySource {
    /// A source of these bytes that fails at the calls whose numbers, from 1, are in `fails`.
    pub fn new(bytes: Text, fails: Vec<u32>) -> MemorySource
        ensures { result ≡ record { left = bytes; fails = fails.items; calls = 0; faults = 0 } }
    {
        MemorySource {
            bytes,
            at: 0,
            fails,
            calls: 0,
            faults: 0,
        }
    }
}

impl Source for MemorySource {
    ghost left = { λ s. Some s.left };

    ghost faults = { λ s. s.faults };

    // The first clause is the trait's.
    fn take(&mut self, buf: &mut [u8]) -> Result<usize, SourceFault>
        requires { 0 < length buf.old }
        ensures take { IsTake buf.new result (Some self.old.left) (Some self.new.left) self.old.faults self.new.faults }
        ensures memory { IsTakeOf self.old self.new (length buf.old) result }
    {
        self.calls = self.calls.saturating_add(1);
        let call = self.calls;
        if is_due(self.fails.as_slice(), call) {
            self.faults = self.faults.saturating_add(1);
            return Err(SourceFault);
        }
        let left = &self.bytes.bytes()[self.at..];
        let n = left.len().min(buf.len());
        buf[..n].copy_from_slice(&left[..n]);
        self.at += n;
        Ok(n)
    }
}

/// A source over a reader of std, which shows no bytes: the trusted edge.
#[derive(Drop)]
pub struct StdSource<R> {
    reader: R,
    faults: u64,
}

impl<R: Read> StdSource<R> {
    /// A source over this reader, without faults so far.
    pub fn new(reader: R) -> StdSource<R>
        ensures { ⟦<StdSource<R> as Source>⟧.faults result ≡ 0 }
    {
        StdSource { reader, faults: 0 }
    }
}

impl<R: Read> Source for StdSource<R> {
    ghost left = { λ _. None };

    ghost faults = { λ s. s.faults };

    fn take(&mut self, buf: &mut [u8]) -> Result<usize, SourceFault> {
        match self.reader.read(buf) {
            Ok(n) => Ok(n),
            Err(_) => {
                self.faults = self.faults.saturating_add(1);
                Err(SourceFault)
            }
        }
    }
}
