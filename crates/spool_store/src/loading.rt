// A spool is opened, whatever its batch.
ghost use Rattle.spool_store.specs.Opening.{IsSpoolOpened};

use crate::progress::Contents;
use crate::spool::Spool;
use journal_state::{Standing, law_one_finding};
use key_journal::{Cause, Unmade};
use std::alloc::Global;
use x_disk::Disk;

impl<E: Disk> Spool<E> {
    /// Opens the spool for which the image stands, whatever batch it holds; nothing is written. Comes with `Blank` exactly
    /// where the image is blank, and with `Damaged` and the place exactly at its first damage, else with the fault of the disk or
    /// with want of memory.
    pub fn load(alloc: Global, disk: E) -> Result<Spool<E>, Unmade<E>>
        ensures { IsSpoolOpened E.told disk result }
    {
        law_one_finding::<Contents>();
        let standing = match Standing::<E, Contents>::load(alloc, disk) {
            Ok(standing) => standing,
            Err(unmade) => return Err(unmade),
        };
        let Some(progress) = &standing.state().progress else {
            return Err(Unmade {
                disk: standing.into_disk(),
                cause: Cause::Blank,
            });
        };
        progress.law_progress();
        Ok(Spool { standing })
    }
}
