// A spool is begun.
ghost use Rattle.std.specs.Prelude.{◌≡◌, ◌∷◌, Some, None, IfOk};
ghost use Rattle.journal_state.specs.Keeping.{IsFrameOf};
ghost use Rattle.spool_store.specs.Contents.{Goes, no_plans};
ghost use Rattle.x_disk.specs.Disk.{IsDurable};
ghost use Rattle.spool_store.specs.Beginning.{IsBegun, IsSorted, IsSpoolMade};

use crate::cause::{SpoolCause, Unbegun};
use crate::contents::BATCH;
use crate::progress::{Contents, Progress};
use crate::spool::Spool;
use csm_batch::{Batch, BatchFault, law_one_reading};
use journal_state::{Standing, law_one_finding};
use key_journal::{Cause, Unmade, close_frame};
use std::alloc::Global;
use x_base::{NoMemory, Text};
use x_disk::Disk;

/// Four bytes for a length, and the body with a batch.
fn batch_behind(alloc: Global, batch: &[u8]) -> Result<Text, NoMemory>
    ensures { IfOk result (λ text. text ≡ 0 ∷ 0 ∷ 0 ∷ 0 ∷ 83 ∷ batch.now) }
{
    let mut text = Text::with_capacity(alloc, batch.len().saturating_add(6))?;
    text.push(&[0, 0, 0, 0, BATCH])?;
    text.push(batch)?;
    Ok(text)
}

/// What the body with a batch makes, in memory of its own.
fn first_contents(alloc: Global, batch: &Batch) -> Result<Contents, NoMemory>
    ensures { IfOk result (λ contents. contents ≡ Some (no_plans batch.now.0 batch.now.1)) }
{
    law_one_reading();
    match Batch::read(alloc, batch.bytes()) {
        Ok(batch) => Ok(Contents {
            progress: Some(Progress {
                batch,
                plans: Vec::new(alloc),
            }),
        }),
        Err(BatchFault::BadLine(_)) => unreachable!(),
        Err(BatchFault::NoMemory) => Err(NoMemory),
    }
}

/// The frame of the body with a batch, and what it makes.
fn first_frame(alloc: Global, batch: &Batch) -> Result<(Text, Contents), NoMemory>
    ensures contents { IfOk result (λ f. f.1 ≡ Some (no_plans batch.now.0 batch.now.1)) }
    ensures frame { IfOk result (λ f. IsFrameOf Goes f.0 None f.1) }
{
    let mut frame = batch_behind(alloc, batch.bytes())?;
    close_frame(&mut frame)?;
    let contents = first_contents(alloc, batch)?;
    Ok((frame, contents))
}

impl<E: Disk> Spool<E> {
    /// Begins the spool of a batch: creates one over a blank image, and opens the one for which the image stands otherwise.
    /// Comes with `OtherBatch` exactly where the image holds a batch with other bytes, and with `Damaged` and the place
    /// exactly at the first damage of the image, else with the fault of the disk or with want of memory. Over a disk that tells,
    /// `Blank` and `NotEmpty` never come.
    pub fn begin(alloc: Global, disk: E, batch: &Batch) -> Result<Spool<E>, Unbegun<E>>
        ensures { IsBegun E.told batch.now.0 batch.now.1 disk result }
    {
        law_one_finding::<Contents>();
        let _bytes = batch.bytes();
        match Standing::load(alloc, disk) {
            Ok(standing) => Spool::opened(standing, batch),
            Err(Unmade { disk, cause }) => match cause {
                Cause::Blank => Spool::create(alloc, disk, batch),
                cause => Err(Unbegun {
                    disk,
                    cause: SpoolCause::Journal(cause),
                }),
            },
        }
    }

    /// The spool of a journal that was read.
    fn opened(standing: Standing<E, Contents>, batch: &Batch) -> Result<Spool<E>, Unbegun<E>>
        ensures { IsSorted E.told batch.now.0 standing result }
    {
        let Some(progress) = &standing.state().progress else {
            return Err(Unbegun {
                disk: standing.into_disk(),
                cause: SpoolCause::Journal(Cause::Blank),
            });
        };
        if progress.batch.bytes() == batch.bytes() {
            return Ok(Spool { standing });
        }
        Err(Unbegun {
            disk: standing.into_disk(),
            cause: SpoolCause::OtherBatch,
        })
    }

    /// Makes a spool of the batch, without plans.
    fn create(alloc: Global, disk: E, batch: &Batch) -> Result<Spool<E>, Unbegun<E>>
        ensures { IsSpoolMade E.told batch.now.0 batch.now.1 disk result }
    {
        let Ok((frame, contents)) = first_frame(alloc, batch) else {
            return Err(Unbegun {
                disk,
                cause: SpoolCause::Journal(Cause::NoMemory),
            });
        };
        match Standing::create(disk, frame.bytes(), contents) {
            Ok(standing) => Ok(Spool { standing }),
            Err(Unmade { disk, cause }) => Err(Unbegun {
                disk,
                cause: SpoolCause::Journal(cause),
            }),
        }
    }

    /// The disk.
    pub fn into_disk(self) -> E
        ensures disk { result ≡ self.disk }
        ensures durable { IsDurable (E.told result) }
    {
        self.standing.into_disk()
    }
}
