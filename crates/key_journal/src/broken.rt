// A journal whose disk failed in a write or a sync.
ghost use Rattle.std.specs.Prelude.{◌≡◌};
ghost use Rattle.key_journal.specs.Causes.{cause_of};

use crate::{Cause, Unmade};
use std::marker::Model;
use x_disk::{Disk, DiskErr};

/// A journal whose disk failed in a write or a sync. It has to be opened again.
#[derive(Drop)]
pub struct Broken<D: Disk> {
    pub(crate) disk: D,
    pub(crate) cause: DiskErr,
}

impl<D: Disk> Model for Broken<D> {
    ghost use Rattle.key_journal.specs.States.{Failed};

    ghost Value = { Failed D };

    ghost view = { λ b. record { disk = b.disk; cause = b.cause } };
}

impl<D: Disk> Broken<D> {
    /// The disk, and why it failed. Makes no disk call.
    pub fn give_up(self) -> Unmade<D>
        ensures disk { result.disk ≡ self.disk }
        ensures cause { result.cause ≡ cause_of self.cause }
    {
        Unmade {
            disk: self.disk,
            cause: Cause::from(self.cause),
        }
    }
}
