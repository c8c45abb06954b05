// The plan of the next entry is kept.
ghost use Rattle.std.specs.Prelude.{◌<◌, length};
ghost use Rattle.spool_store.specs.Plans.{IsEntryPlan};
ghost use Rattle.spool_store.specs.Committing.{IsCommitting};

use crate::entry_plan::EntryPlan;
use crate::spool::Spool;
use crate::writing::plan_frame;
use journal_state::Standing;
use key_journal::Broken;
use std::alloc::Global;
use x_base::NoMemory;
use x_disk::Disk;

/// What became of a plan that was to be kept.
#[derive(Drop)]
pub enum Committed<E: Disk> {
    /// It stands behind the others.
    Done(Spool<E>),
    /// The disk failed. The spool has to be begun again.
    Broken(Broken<E>),
    /// No memory or no room was left; nothing changed. The limits of a batch and of a plan leave room.
    NoMemory(Spool<E>),
}

impl<E: Disk> Spool<E> {
    /// Keeps the plan of the next entry. All memory is taken before the first disk call.
    pub fn commit(self, alloc: Global, plan: EntryPlan) -> Committed<E>
        requires plan { IsEntryPlan plan }
        requires next { length self.progress.plans < length self.progress.entries }
        ensures { IsCommitting E.told self plan result }
    {
        let Ok(frame) = plan_frame(alloc, &plan) else {
            return Committed::NoMemory(self);
        };
        if !self.standing.fits(frame.bytes().len()) {
            return Committed::NoMemory(self);
        }
        let (ready, mut contents) = self.standing.into_parts();
        match contents.push(plan) {
            Err(NoMemory) => Committed::NoMemory(Spool {
                standing: Standing::of_parts(ready, contents),
            }),
            Ok(()) => match Standing::keep_behind(ready, frame.bytes(), contents) {
                Ok(standing) => Committed::Done(Spool { standing }),
                Err(broken) => Committed::Broken(broken),
            },
        }
    }
}
