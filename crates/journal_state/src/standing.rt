// A journal at rest, and the state for which it stands.
ghost use Rattle.std.specs.Prelude.{◌≡◌, ◌↔◌, ◌+◌, ◌≤◌, IsTrue};
ghost use Rattle.x_disk.specs.Disk.{IsDurable};
ghost use Rattle.journal_state.specs.States.{IsStanding, stood};

use crate::judge::Judge;
use key_journal::Ready;
use std::marker::Model;
use x_disk::Disk;

/// A state on a disk. Every image that a crash may leave stands for it.
#[derive(Drop)]
pub struct Standing<D: Disk, J: Judge> {
    pub(crate) ready: Ready<D>,
    pub(crate) state: J,
}

impl<D: Disk, J: Judge> Model for Standing<D, J> {
    ghost use Rattle.journal_state.specs.States.{Stood, IsStanding};

    ghost Value = { Stood D J };

    ghost view = { λ s. record { disk = s.ready.disk; gate = s.ready.gate; end = s.ready.end; state = s.state } };

    ghost invariant = { λ s. IsStanding J.step J.start (D.told s.ready.disk) s.ready.gate s.ready.end s.state };
}

impl<D: Disk, J: Judge> Standing<D, J> {
    /// The state. Each image that a crash may leave stands for it.
    pub fn state(&self) -> &J
        ensures state { result.now ≡ self.now.state }
        ensures stands { IsStanding J.step J.start (D.told self.now.disk) self.now.gate self.now.end self.now.state }
    {
        &self.state
    }

    /// The disk.
    pub fn into_disk(self) -> D
        ensures disk { result ≡ self.disk }
        ensures durable { IsDurable (D.told result) }
    {
        self.ready.into_disk()
    }

    /// The journal and the state, taken apart.
    pub fn into_parts(self) -> (Ready<D>, J)
        ensures parts { stood result.0 result.1 ≡ self }
        ensures stands { IsStanding J.step J.start (D.told result.0.disk) result.0.gate result.0.end result.1 }
    {
        (self.ready, self.state)
    }

    /// The two put together again.
    pub fn of_parts(ready: Ready<D>, state: J) -> Standing<D, J>
        requires { IsStanding J.step J.start (D.told ready.disk) ready.gate ready.end state }
        ensures { result ≡ stood ready state }
    {
        Standing { ready, state }
    }

    /// Whether a frame whose text has this length fits below the area's end.
    pub fn fits(&self, frame_len: usize) -> bool
        ensures { IsTrue result ↔ (self.now.gate + 1 + frame_len ≤ self.now.end) }
    {
        self.ready.fits(frame_len)
    }
}
