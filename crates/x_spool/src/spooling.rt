// A batch is taken.
ghost use Rattle.std.specs.Prelude.{◌≢◌};
ghost use Rattle.x_spool.specs.Dues.{GivesDue};
ghost use Rattle.x_spool.specs.Onward.{GoesOnward};
ghost use Rattle.x_spool.specs.Outcomes.{MakesBatch, StaysInStep};
ghost use Rattle.x_spool.specs.Shelves.{LeavesShelf};

use crate::closing::{closed, failure};
use crate::driving::spool_over;
use crate::laws::law_one_due;
use crate::outcome::SpoolOutcome;
use csm_batch::Batch;
use disk_pair::{fetch_two, put_back_two};
use std::alloc::Global;
use x_base::Ident;
use x_disk::Shelf;

/// Takes a batch at a party, with the spool of that name, which differs from the party's: each entry's plan is on the spool's
/// disk before the party carries it out, and a batch that was broken off goes on where it stopped. Both disks are put back,
/// whatever comes, and the outbox is handed out where the batch is done. Once only is a promise as long as nobody else commands
/// the party until then, and the spool's disk is kept. Whoever commanded the party before: a batch that is done went on from where
/// the party stood, and whatever comes, each image that a crash may leave of the party's disk is one that it could leave before, and
/// no entry was planned; or it stands for the party as it was, or as it went on so, and each one of the spool's disk holds the plans
/// by which it did: all, or all but the last one, which changes nothing, or one more, which changes something.
pub fn spool<H: Shelf>(
    alloc: Global,
    shelf: &mut H,
    party: &Ident,
    spool: &Ident,
    batch: &Batch,
) -> SpoolOutcome
    requires { party.now ≢ spool.now }
    ensures made { MakesBatch party.now batch.now.0 batch.now.1 (H.entry shelf.old party.now) (H.entry shelf.old spool.now) (H.entry shelf.new party.now) (H.entry shelf.new spool.now) result }
    ensures in_step { StaysInStep party.now batch.now.0 batch.now.1 (H.entry shelf.old party.now) (H.entry shelf.old spool.now) (H.entry shelf.new party.now) (H.entry shelf.new spool.now) result }
    ensures onward { GoesOnward party.now batch.now.0 batch.now.1 (H.entry shelf.old party.now) (H.entry shelf.old spool.now) (H.entry shelf.new party.now) (H.entry shelf.new spool.now) result }
    ensures due { GivesDue party.now batch.now.0 (H.entry shelf.old party.now) (H.entry shelf.old spool.now) result }
    ensures shelf { LeavesShelf party.now spool.now result (H.is_back shelf.new party.now) (H.is_back shelf.new spool.now) (H.entry shelf.old) (H.entry shelf.new) (H.faults shelf.old) (H.faults shelf.new) }
{
    law_one_due();
    let disks = match fetch_two(shelf, party, spool) {
        Ok(disks) => disks,
        Err(cause) => return failure(cause),
    };
    let (disks, outcome) = spool_over(alloc, disks, party, batch);
    closed(outcome, put_back_two(shelf, party, spool, disks))
}
