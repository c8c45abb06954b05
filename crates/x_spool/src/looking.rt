// The outbox of a spool is looked at.
ghost use Rattle.x_disk.specs.Disk.{IsUntouched};
ghost use Rattle.x_disk.specs.Shelf.{shelf_view};
ghost use Rattle.std.specs.Prelude.{◌≡◌};
ghost use Rattle.x_spool.specs.Looks.{HandsOutbox, HasLooked, IsReturned, IsTaken, look_failure, look_of};
ghost use Rattle.x_spool.specs.Outboxes.{GivesOutbox, LeavesOne, ShowsOutbox};

use crate::laws::law_one_outbox;
use crate::outcome::OutboxOutcome;
use key_journal::{Cause, Unmade};
use spool_store::Spool;
use std::alloc::Global;
use x_base::{Ident, NoMemory};
use x_disk::{Disk, DiskErr, Shelf};

/// A failure of the shelf as an outcome.
fn failure(cause: DiskErr) -> OutboxOutcome
    ensures { result ≡ look_failure cause }
{
    match cause {
        DiskErr::Fault => OutboxOutcome::Fault,
        DiskErr::NoMemory => OutboxOutcome::NoMemory,
    }
}

/// The outcome where no spool is opened. No opening tells that a disk isn't empty, but of a file that changes by itself.
fn outcome_of(cause: Cause) -> OutboxOutcome
    ensures { result ≡ look_of cause }
{
    match cause {
        Cause::Blank => OutboxOutcome::Blank,
        Cause::NotEmpty => OutboxOutcome::Damaged(0),
        Cause::Damaged(place) => OutboxOutcome::Damaged(place),
        Cause::Fault => OutboxOutcome::Fault,
        Cause::NoMemory => OutboxOutcome::NoMemory,
    }
}

/// Fetches the disk. Where it can't be fetched, all stays.
fn take<H: Shelf>(shelf: &mut H, name: &Ident) -> Result<H::Disk, OutboxOutcome>
    ensures { IsTaken H.Disk.told name.now (shelf_view H.entry H.has_slot H.is_back H.faults shelf.old) (shelf_view H.entry H.has_slot H.is_back H.faults shelf.new) result }
{
    match shelf.fetch(name) {
        Ok(disk) => Ok(disk),
        Err(cause) => Err(failure(cause)),
    }
}

/// Puts the disk back. An error of that comes in place of the outcome.
fn give_back<H: Shelf>(
    shelf: &mut H,
    name: &Ident,
    disk: H::Disk,
    outcome: OutboxOutcome,
) -> OutboxOutcome
    requires { H.has_slot shelf.old name.now }
    ensures { IsReturned H.Disk.told name.now disk outcome (shelf_view H.entry H.has_slot H.is_back H.faults shelf.old) (shelf_view H.entry H.has_slot H.is_back H.faults shelf.new) result }
{
    match shelf.put_back(name, disk) {
        Ok(()) => outcome,
        Err(cause) => failure(cause),
    }
}

/// What a spool tells.
fn told<D: Disk>(alloc: Global, spool: &Spool<D>) -> OutboxOutcome
    ensures { HandsOutbox spool.now.progress result }
{
    spool.progress();
    let missing = spool.open_entries() as u32;
    match spool.outbox(alloc) {
        Ok(text) => OutboxOutcome::Done { text, missing },
        Err(NoMemory) => OutboxOutcome::NoMemory,
    }
}

/// Opens the spool of a disk, and tells its outbox.
fn look<D: Disk>(alloc: Global, disk: D) -> (D, OutboxOutcome)
    ensures { HasLooked D.told disk result.0 result.1 }
{
    match Spool::load(alloc, disk) {
        Ok(spool) => {
            let outcome = told(alloc, &spool);
            (spool.into_disk(), outcome)
        }
        Err(Unmade { disk, cause }) => (disk, outcome_of(cause)),
    }
}

/// The outbox of the plans that stand in the spool of this name, as `Done` of `spool` would hand it out, and how many entries
/// have no plan yet. The spool's disk alone is read; nothing is written, and it is put back, whatever comes.
pub fn outbox<H: Shelf>(alloc: Global, shelf: &mut H, name: &Ident) -> OutboxOutcome
    ensures shows { ShowsOutbox (H.entry shelf.old name.now) result }
    ensures due { GivesOutbox (H.entry shelf.old name.now) result }
    ensures untouched { IsUntouched (H.entry shelf.old name.now) (H.entry shelf.new name.now) }
    ensures shelf { LeavesOne name.now result (H.is_back shelf.new name.now) (H.entry shelf.old) (H.entry shelf.new) (H.faults shelf.old) (H.faults shelf.new) }
{
    law_one_outbox();
    let disk = match take(shelf, name) {
        Ok(disk) => disk,
        Err(outcome) => return outcome,
    };
    let (disk, outcome) = look(alloc, disk);
    give_back(shelf, name, disk, outcome)
}
