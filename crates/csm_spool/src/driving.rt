// A batch is driven to its end.
ghost use Rattle.csm_spool.specs.Drives.{IsDrive, IsRun};
ghost use Rattle.csm_spool.specs.Going.{GoesAnyhow, RunsAnyhow};

use crate::catching::{Caught, catch_up};
use crate::laws::law_catching_up;
use crate::outcome::Driven;
use crate::stepping::{Stepped, step};
use csm_feed::law_one_hearing;
use key_store::law_one_finding;
use node_core::Node;
use spool_store::{Contents, Spool};
use std::alloc::Global;
use x_disk::Disk;

/// From a party that is behind the plans that stand to the end of the batch.
fn run_on<D: Disk, E: Disk>(alloc: Global, node: Node<D>, spool: Spool<E>) -> Driven<D, E>
    ensures run { IsRun D.told E.told node spool result }
    ensures anyhow { RunsAnyhow D.told E.told node spool result }
{
    let mut node = node;
    let mut spool = spool;
    'running: while spool.progress().has_next() {
        match step(node, spool, alloc) {
            Stepped::On {
                node: after,
                spool: new,
            } => {
                node = after;
                spool = new;
            }
            Stepped::NodeBroken { broken, spool } => {
                spool.progress();
                return Driven::NodeBroken { broken, spool };
            }
            Stepped::SpoolBroken { node, broken } => {
                node.view();
                return Driven::SpoolBroken { node, broken };
            }
            Stepped::NoMemory { node, spool } => {
                node.view();
                spool.progress();
                return Driven::NoMemory { node, spool };
            }
        }
    }
    node.view();
    spool.progress();
    Driven::Done { node, spool }
}

/// Takes up the last plan again where it isn't carried out, and then plans and carries out entry by entry to the end of the
/// batch. The plan of an entry is on the spool's disk before the party's disk is written. Whoever commanded the party before: a
/// batch that is done went on from where the party stood, and whatever came, each image that a crash may leave of the party's
/// disk stands for the party as it was, or as it went on so; and each one of the spool's disk holds the plans by which it did: all,
/// or all but the last one, which changes nothing, or one more, which changes something.
pub fn drive<D: Disk, E: Disk>(alloc: Global, node: Node<D>, spool: Spool<E>) -> Driven<D, E>
    ensures drive { IsDrive D.told E.told node spool result }
    ensures anyhow { GoesAnyhow D.told E.told node spool result }
{
    law_one_finding();
    journal_state::law_one_finding::<Contents>();
    law_catching_up();
    law_one_hearing();
    node.view();
    spool.progress();
    match catch_up(alloc, node, spool) {
        Caught::Behind { node, spool } => run_on(alloc, node, spool),
        Caught::OutOfStep { node, spool } => {
            let entry = spool.progress().plan_count() as u32;
            Driven::OutOfStep { node, spool, entry }
        }
        Caught::NodeBroken { broken, spool } => Driven::NodeBroken { broken, spool },
        Caught::NoMemory { node, spool } => Driven::NoMemory { node, spool },
    }
}
