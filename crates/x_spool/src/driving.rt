// The batch is driven over the two disks.
ghost use Rattle.std.specs.Prelude.{◌≡◌};
ghost use Rattle.spool_store.specs.Spools.{outbox_of};
ghost use Rattle.x_spool.specs.Steps.{HandsOut, HasActed, IsEnd, driven_disks, outcome_of_spool, two_disks};

use crate::opening::{no_party, outcome_of};
use crate::outcome::SpoolOutcome;
use csm_batch::Batch;
use csm_spool::{Driven, begin, drive};
use disk_pair::Disks;
use key_journal::Cause;
use key_store::law_one_finding;
use node_core::{Node, NotOpened};
use spool_store::{Contents, Spool, SpoolCause, Unbegun};
use std::alloc::Global;
use x_base::{Ident, NoMemory};
use x_disk::Disk;

/// The outcome where no spool is begun.
fn outcome_of_spool(cause: SpoolCause) -> SpoolOutcome
    ensures { result ≡ outcome_of_spool cause }
{
    match cause {
        SpoolCause::Journal(Cause::Blank) => SpoolOutcome::Damaged(0),
        SpoolCause::Journal(cause) => outcome_of(cause),
        SpoolCause::OtherBatch => SpoolOutcome::OtherBatch,
    }
}

/// The outbox of a batch that is done.
fn handed_out<D: Disk>(alloc: Global, spool: &Spool<D>) -> SpoolOutcome
    ensures { HandsOut (outbox_of spool.now.progress.plans) result }
{
    match spool.outbox(alloc) {
        Ok(text) => SpoolOutcome::Done { text },
        Err(NoMemory) => SpoolOutcome::NoMemory,
    }
}

/// The disks of a batch that was driven, and what is told of it.
fn ended<D: Disk>(alloc: Global, driven: Driven<D, D>) -> (Disks<D>, SpoolOutcome)
    ensures disks { result.0 ≡ driven_disks driven }
    ensures outcome { IsEnd D.told driven result.1 }
{
    match driven {
        Driven::Done { node, spool } => {
            node.view();
            spool.progress();
            let outcome = handed_out(alloc, &spool);
            let first = node.into_disk();
            let second = spool.into_disk();
            (Disks { first, second }, outcome)
        }
        Driven::OutOfStep { node, spool, entry } => {
            let first = node.into_disk();
            let second = spool.into_disk();
            (Disks { first, second }, SpoolOutcome::OutOfStep(entry))
        }
        Driven::NodeBroken { broken, spool } => {
            let unmade = broken.give_up();
            let first = unmade.disk;
            let second = spool.into_disk();
            (Disks { first, second }, outcome_of(unmade.cause))
        }
        Driven::SpoolBroken { node, broken } => {
            let first = node.into_disk();
            let unmade = broken.give_up();
            let second = unmade.disk;
            (Disks { first, second }, outcome_of(unmade.cause))
        }
        Driven::NoMemory { node, spool } => {
            let first = node.into_disk();
            let second = spool.into_disk();
            (Disks { first, second }, SpoolOutcome::NoMemory)
        }
    }
}

/// Begins the spool beside the party, and drives the batch.
fn drive_over<D: Disk>(
    alloc: Global,
    node: Node<D>,
    disk: D,
    batch: &Batch,
) -> (Disks<D>, SpoolOutcome)
    ensures { HasActed node.party.own batch.now.0 batch.now.1 D.told (two_disks node.disk disk) result.0 result.1 }
{
    law_one_finding();
    journal_state::law_one_finding::<Contents>();
    node.view();
    match begin(alloc, &node, disk, batch) {
        Ok(spool) => {
            let driven = drive(alloc, node, spool);
            ended(alloc, driven)
        }
        Err(Unbegun { disk, cause }) => {
            let first = node.into_disk();
            let disks = Disks {
                first,
                second: disk,
            };
            (disks, outcome_of_spool(cause))
        }
    }
}

/// Opens the party, whose disk is the first, begins the spool on the second, and drives the batch.
pub(crate) fn spool_over<D: Disk>(
    alloc: Global,
    disks: Disks<D>,
    party: &Ident,
    batch: &Batch,
) -> (Disks<D>, SpoolOutcome)
    ensures { HasActed party.now batch.now.0 batch.now.1 D.told disks result.0 result.1 }
{
    let Disks { first, second } = disks;
    match Node::open_named(alloc, first, party) {
        Ok(node) => drive_over(alloc, node, second, batch),
        Err(NotOpened { disk, why }) => {
            let disks = Disks {
                first: disk,
                second,
            };
            (disks, no_party(party, why))
        }
    }
}
