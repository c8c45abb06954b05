// An entry of a batch: its plan is kept, and then the party carries it out.
ghost use Rattle.std.specs.Prelude.{◌<◌, length};
ghost use Rattle.member.specs.Member.{after};
ghost use Rattle.node_core.specs.Turns.{member_of};
ghost use Rattle.spool_store.specs.Plans.{IsEntryPlan};
ghost use Rattle.csm_spool.specs.Stepping.{IsCarried, IsNext, IsStep};

use crate::foreseeing::{Foreseen, foresee};
use key_journal::Broken;
use node_core::{Node, Planned, Turn};
use spool_store::{Committed, EntryPlan, Spool};
use std::alloc::Global;
use x_disk::Disk;

/// What became of an entry.
#[derive(Drop)]
pub enum Stepped<D: Disk, E: Disk> {
    /// Its plan stands, and the party is behind it.
    On { node: Node<D>, spool: Spool<E> },
    /// Its plan stands, and the party's disk failed.
    NodeBroken { broken: Broken<D>, spool: Spool<E> },
    /// The party is as it was, and the spool's disk failed.
    SpoolBroken { node: Node<D>, broken: Broken<E> },
    /// No memory was left; nothing changed.
    NoMemory { node: Node<D>, spool: Spool<E> },
}

/// Keeps the plan of an entry that is refused as no message.
fn refuse<D: Disk, E: Disk>(
    node: Node<D>,
    spool: Spool<E>,
    alloc: Global,
    plan: EntryPlan,
) -> Stepped<D, E>
    requires plan { IsEntryPlan plan }
    requires next { IsNext spool.progress (member_of node) plan (member_of node) }
    ensures { IsStep D.told E.told node spool result }
{
    match spool.commit(alloc, plan) {
        Committed::Done(spool) => Stepped::On { node, spool },
        Committed::Broken(broken) => Stepped::SpoolBroken { node, broken },
        Committed::NoMemory(spool) => Stepped::NoMemory { node, spool },
    }
}

/// Carries out what was planned, whose plan stands.
pub(crate) fn carry_out<D: Disk>(planned: Planned<D>) -> Result<Node<D>, Broken<D>>
    ensures { IsCarried D.told planned result }
{
    match planned.carry_out() {
        Turn::Done { node, .. } => Ok(node),
        Turn::Broken(broken) => Err(broken),
        Turn::NoMemory(_) => unreachable!(),
    }
}

/// Keeps the plan of a message, and then carries it out.
fn accept<D: Disk, E: Disk>(
    planned: Planned<D>,
    spool: Spool<E>,
    alloc: Global,
    plan: EntryPlan,
) -> Stepped<D, E>
    requires plan { IsEntryPlan plan }
    requires next { IsNext spool.progress (member_of planned.node) plan (after (member_of planned.node) planned.plan.edits) }
    ensures { IsStep D.told E.told planned.node spool result }
{
    match spool.commit(alloc, plan) {
        Committed::Broken(broken) => Stepped::SpoolBroken {
            node: planned.cancel(),
            broken,
        },
        Committed::NoMemory(spool) => Stepped::NoMemory {
            node: planned.cancel(),
            spool,
        },
        Committed::Done(spool) => match carry_out(planned) {
            Ok(node) => Stepped::On { node, spool },
            Err(broken) => Stepped::NodeBroken { broken, spool },
        },
    }
}

/// The next entry of the batch.
pub(crate) fn step<D: Disk, E: Disk>(node: Node<D>, spool: Spool<E>, alloc: Global) -> Stepped<D, E>
    requires { length spool.progress.plans < length spool.progress.entries }
    ensures { IsStep D.told E.told node spool result }
{
    let progress = spool.progress();
    match foresee(alloc, node, progress.entry(progress.plan_count())) {
        Foreseen::NoMemory(node) => Stepped::NoMemory { node, spool },
        Foreseen::Refused { node, plan } => refuse(node, spool, alloc, plan),
        Foreseen::Message { planned, plan } => accept(planned, spool, alloc, plan),
    }
}
