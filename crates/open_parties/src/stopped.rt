// A stopped event over a party's disk: it is begun, the power goes, and the party is opened again.
ghost use Rattle.std.specs.Prelude.{◌≡◌, ◌<◌, ◌≤◌, ℕ, true, Err, IfOk, IfErr, OnErr};
ghost use Rattle.x_base.specs.Edge.{Rose};
ghost use Rattle.x_disk.specs.Disk.{Tells, LeavesOnly};
ghost use Rattle.x_disk.specs.Shelf.{IsAlike};
ghost use Rattle.key_journal.specs.Opening.{IsFree};
ghost use Rattle.change_code.specs.Cost.{is_change};
ghost use Rattle.member.specs.Member.{after};
ghost use Rattle.node_core.specs.Turns.{member_of};
ghost use Rattle.open_parties.specs.Around.{ShelfStays};
ghost use Rattle.open_parties.specs.Crash.{IsEither, disk_begun, disk_opened};
ghost use Rattle.open_parties.specs.Failing.{IsFailing, IsFailedPartyDisk, ReadsEither};
ghost use Rattle.open_parties.specs.Stops.{IsDiskAtStop, IsRestarted};

use crate::failure::Failure;
use key_journal::{Cause, Unmade};
use node_core::{Node, Planned, Turn};
use std::alloc::Global;
use x_base::Ident;
use x_disk::{Disk, DiskErr, Shelf};

/// A disk at which a play breaks off, and why.
#[derive(Drop)]
pub struct FailedPartyDisk<D: Disk> {
    pub disk: D,
    pub why: Failure,
}

/// What is planned is carried out over a disk that fails at the `n`-th call.
fn carry_out_fused<D: Disk>(planned: Planned<D>, n: u64) -> Result<D, FailedPartyDisk<D>>
    requires { n ≤ 4 }
    ensures at_stop { IfOk result (λ disk. IsDiskAtStop (D.told planned.node.disk) (D.told disk) (member_of planned.node) (after (member_of planned.node) planned.plan.edits) (is_change planned.plan.edits ≡ true) n) }
    ensures memory { IfErr result (λ failed_disk. failed_disk.why ≡ Failure.NoMemory) }
    ensures left { IfErr result (λ failed_disk. Tells (D.told planned.node.disk) → ReadsEither (D.told failed_disk.disk) (member_of planned.node) (after (member_of planned.node) planned.plan.edits) (is_change planned.plan.edits ≡ true)) }
    ensures crash { Tells (D.told planned.node.disk) → LeavesOnly (D.told planned.node.disk) (D.told (disk_begun result)) (IsEither (member_of planned.node) (after (member_of planned.node) planned.plan.edits) (is_change planned.plan.edits ≡ true)) }
{
    match planned.fuse(n.saturating_sub(1)).carry_out() {
        Turn::Done { node, .. } => Ok(node.into_disk().into_inner()),
        Turn::Broken(broken) => {
            let Unmade { disk, cause } = broken.give_up();
            match cause {
                Cause::Fault => Ok(disk.into_inner()),
                _ => Err(FailedPartyDisk {
                    disk: disk.into_inner(),
                    why: Failure::NoMemory,
                }),
            }
        }
        Turn::NoMemory(node) => Err(FailedPartyDisk {
            disk: node.into_disk().into_inner(),
            why: Failure::NoMemory,
        }),
    }
}

/// What is planned is carried out up to the `n`-th disk call.
pub fn carry_out_to_call<D: Disk>(planned: Planned<D>, n: u64) -> Result<D, FailedPartyDisk<D>>
    ensures at_stop { IfOk result (λ disk. IsDiskAtStop (D.told planned.node.disk) (D.told disk) (member_of planned.node) (after (member_of planned.node) planned.plan.edits) (is_change planned.plan.edits ≡ true) n) }
    ensures failing { IfErr result (λ failed_disk. IsFailing failed_disk.why) }
    ensures left { IfErr result (λ failed_disk. Tells (D.told planned.node.disk) → ReadsEither (D.told failed_disk.disk) (member_of planned.node) (after (member_of planned.node) planned.plan.edits) (is_change planned.plan.edits ≡ true)) }
    ensures fault { IfErr result (λ failed_disk. failed_disk.why ≡ Failure.Fault → 0 < (D.told failed_disk.disk).faults) }
    ensures crash { Tells (D.told planned.node.disk) → LeavesOnly (D.told planned.node.disk) (D.told (disk_begun result)) (IsEither (member_of planned.node) (after (member_of planned.node) planned.plan.edits) (is_change planned.plan.edits ≡ true)) }
{
    if n <= 4 {
        return carry_out_fused(planned, n);
    }
    match planned.carry_out() {
        Turn::Done { node, .. } => Ok(node.into_disk()),
        Turn::Broken(broken) => {
            let Unmade { disk, cause } = broken.give_up();
            Err(FailedPartyDisk {
                disk,
                why: failure_by(cause),
            })
        }
        Turn::NoMemory(node) => Err(FailedPartyDisk {
            disk: node.into_disk(),
            why: Failure::NoMemory,
        }),
    }
}

/// The failure of a disk or a shelf.
pub fn failure_of(error: DiskErr) -> Failure
    ensures fault { result ≡ Failure.Fault → error ≡ DiskErr.Fault }
    ensures undamaged { (place : ℕ) → result ≡ Failure.Damaged place → ⊥ }
    ensures failing { IsFailing result }
{
    match error {
        DiskErr::Fault => Failure::Fault,
        DiskErr::NoMemory => Failure::NoMemory,
    }
}

/// Puts a disk back on the shelf and fetches it anew, so that its faults are among the shelf's.
pub fn put_back_and_fetch<H: Shelf>(
    shelf: &mut H,
    own: &Ident,
    disk: H::Disk,
) -> Result<H::Disk, Failure>
    requires { H.has_slot shelf.old own.now }
    ensures alike { IfOk result (λ again. IsAlike (H.Disk.told disk) (H.Disk.told again)) }
    ensures stays { OnErr result (IsAlike (H.Disk.told disk) (H.entry shelf.new own.now)) }
    ensures failing { IfErr result IsFailing }
    ensures shelf { ShelfStays own.now (H.entry shelf.old) (H.entry shelf.new) (H.has_slot shelf.old) (H.has_slot shelf.new) (H.faults shelf.old) (H.faults shelf.new) }
    ensures seen { 0 < (H.Disk.told disk).faults → Rose (H.faults shelf.old) (H.faults shelf.new) }
    ensures fault { result ≡ Err Failure.Fault → Rose (H.faults shelf.old) (H.faults shelf.new) }
{
    match shelf.put_back(own, disk) {
        Ok(()) => {}
        Err(error) => return Err(failure_of(error)),
    }
    match shelf.fetch(own) {
        Ok(again) => Ok(again),
        Err(error) => Err(failure_of(error)),
    }
}

/// Why a disk isn't opened, or a change isn't kept.
pub fn failure_by(cause: Cause) -> Failure
    ensures fault { result ≡ Failure.Fault → cause ≡ Cause.Fault }
    ensures failing { IsFree cause → IsFailing result }
{
    match cause {
        Cause::Fault => Failure::Fault,
        Cause::NoMemory => Failure::NoMemory,
        Cause::Blank | Cause::NotEmpty => Failure::Damaged(0),
        Cause::Damaged(place) => Failure::Damaged(place),
    }
}

/// Powers the disk off with a choice, and opens its party.
pub fn restart<D: Disk>(disk: D, alloc: Global, choice: u64) -> Result<Node<D>, FailedPartyDisk<D>>
    ensures opened { IfOk result (λ node. IsRestarted (D.told disk) (D.told node.disk) choice node.gate node.end node.format node.party) }
    ensures failed_disk { IfErr result (λ failed_disk. IsFailedPartyDisk (D.told disk) (D.told failed_disk.disk) failed_disk.why) }
    ensures fault { IfErr result (λ failed_disk. failed_disk.why ≡ Failure.Fault → 0 < (D.told failed_disk.disk).faults) }
    ensures crash { LeavesOnly (D.told disk) (D.told (disk_opened result)) (D.told disk).may_leave }
{
    let mut disk = disk;
    match disk.power_off(choice) {
        Ok(()) => {}
        Err(error) => {
            return Err(FailedPartyDisk {
                disk,
                why: failure_of(error),
            });
        }
    }
    match Node::open_from(alloc, disk) {
        Ok(node) => Ok(node),
        Err(Unmade { disk, cause }) => Err(FailedPartyDisk {
            disk,
            why: failure_by(cause),
        }),
    }
}
