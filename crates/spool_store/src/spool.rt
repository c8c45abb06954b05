// A spool over its disk.
ghost use Rattle.std.specs.Prelude.{◌≡◌};
ghost use Rattle.spool_store.specs.Spools.{IsSpool};

use crate::progress::{Contents, Progress};
use journal_state::Standing;
use std::marker::Model;
use x_disk::Disk;

/// A batch and the plans of its first entries, on a disk of their own. Every image that a crash may leave holds them.
#[derive(Drop)]
pub struct Spool<E: Disk> {
    pub(crate) standing: Standing<E, Contents>,
}

impl<E: Disk> Model for Spool<E> {
    ghost use Rattle.std.specs.Prelude.{◌≡◌, Some};
    ghost use Rattle.spool_store.specs.Spools.{Spooled, spooled, progress_in};

    ghost Value = { Spooled E };

    ghost view = { λ s. spooled s.standing };

    ghost invariant = { λ s. s.standing.state ≡ Some (progress_in s.standing.state) };
}

impl<E: Disk> Spool<E> {
    /// How far the batch is.
    pub fn progress(&self) -> &Progress
        ensures progress { result.now ≡ self.now.progress }
        ensures spool { IsSpool (E.told self.now.disk) self.now.gate self.now.end self.now.progress }
    {
        match &self.standing.state().progress {
            Some(progress) => {
                progress.law_progress();
                progress
            }
            None => unreachable!(),
        }
    }
}
