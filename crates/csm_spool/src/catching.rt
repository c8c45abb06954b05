// The last plan is taken up again where it isn't carried out.
ghost use Rattle.std.specs.Prelude.{◌≡◌, ◌↔◌, ◌+◌, true, false, length, slice_get, Some, IfOk, IsTrue};
ghost use Rattle.member.specs.Member.{after};
ghost use Rattle.node_core.specs.Turns.{member_of};
ghost use Rattle.spool_store.specs.declared.entry_plan.EntryPlan.{EntryPlan as ThePlan};
ghost use Rattle.spool_store.specs.Plans.{IsChange};
ghost use Rattle.csm_spool.specs.Drives.{IsSettled};
ghost use Rattle.csm_spool.specs.Catching.{IsCatching, TakesUp};

use crate::foreseeing::{Foreseen, foresee};
use crate::stepping::carry_out;
use change_code::{CodeFault, decode, law_one_change};
use key_journal::Broken;
use node_core::{Node, Planned};
use spool_store::{EntryPlan, Spool};
use std::alloc::Global;
use x_base::NoMemory;
use x_disk::Disk;

/// What became of the last plan.
#[derive(Drop)]
pub enum Caught<D: Disk, E: Disk> {
    /// The party is behind it.
    Behind { node: Node<D>, spool: Spool<E> },
    /// It isn't carried out, and the party would do otherwise with its entry. Nothing changed.
    OutOfStep { node: Node<D>, spool: Spool<E> },
    /// The party's disk failed.
    NodeBroken { broken: Broken<D>, spool: Spool<E> },
    /// No memory was left; nothing changed.
    NoMemory { node: Node<D>, spool: Spool<E> },
}

/// Whether a plan is carried out.
fn is_settled<D: Disk>(alloc: Global, node: &Node<D>, plan: &EntryPlan) -> Result<bool, NoMemory>
    requires { IsChange plan.now.change }
    ensures yes { IfOk result (λ is. is ≡ true → IsSettled node.now.party plan.now) }
    ensures no { IfOk result (λ is. is ≡ false → IsSettled node.now.party plan.now → ⊥) }
{
    law_one_change();
    let code = plan.change.bytes();
    if code.is_empty() {
        return Ok(true);
    }
    match decode(alloc, code) {
        Ok(coded) => Ok(node.settled(&coded.change)),
        Err(CodeFault::NoMemory) => Err(NoMemory),
        Err(CodeFault::Bad) => unreachable!(),
    }
}

/// Whether two plans are the same.
fn is_same(a: &EntryPlan, b: &EntryPlan) -> bool
    ensures { IsTrue result ↔ (a.now ≡ b.now) }
{
    a.number == b.number && a.reply == b.reply && a.change == b.change
}

/// Carries the last plan out.
fn take_up<D: Disk, E: Disk>(planned: Planned<D>, spool: Spool<E>) -> Caught<D, E>
    requires { TakesUp (member_of planned.node) (after (member_of planned.node) planned.plan.edits) spool.progress }
    ensures { IsCatching D.told E.told planned.node spool result }
{
    match carry_out(planned) {
        Ok(node) => Caught::Behind { node, spool },
        Err(broken) => Caught::NodeBroken { broken, spool },
    }
}

/// Takes the last plan up, which isn't settled, where the party would do with its entry what it says.
fn take_again<D: Disk, E: Disk>(
    alloc: Global,
    node: Node<D>,
    spool: Spool<E>,
    last: usize,
) -> Caught<D, E>
    requires count { length spool.progress.plans ≡ last + 1 }
    requires unsettled { (plan : ThePlan) → slice_get spool.progress.plans last ≡ Some plan → IsSettled node.party plan → ⊥ }
    ensures { IsCatching D.told E.told node spool result }
{
    let progress = spool.progress();
    let kept = progress.plan(last);
    match foresee(alloc, node, progress.entry(last)) {
        Foreseen::NoMemory(node) => Caught::NoMemory { node, spool },
        Foreseen::Refused { node, .. } => Caught::OutOfStep { node, spool },
        Foreseen::Message { planned, plan } => {
            if is_same(&plan, kept) {
                take_up(planned, spool)
            } else {
                Caught::OutOfStep {
                    node: planned.cancel(),
                    spool,
                }
            }
        }
    }
}

/// Takes the last plan up again where it isn't settled.
pub(crate) fn catch_up<D: Disk, E: Disk>(
    alloc: Global,
    node: Node<D>,
    spool: Spool<E>,
) -> Caught<D, E>
    ensures { IsCatching D.told E.told node spool result }
{
    let progress = spool.progress();
    let count = progress.plan_count();
    if count == 0 {
        return Caught::Behind { node, spool };
    }
    let last = count - 1;
    let kept = progress.plan(last);
    match is_settled(alloc, &node, kept) {
        Err(NoMemory) => Caught::NoMemory { node, spool },
        Ok(true) => Caught::Behind { node, spool },
        Ok(false) => take_again(alloc, node, spool, last),
    }
}
