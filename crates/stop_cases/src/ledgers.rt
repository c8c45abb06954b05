// Payments over a ledger whose disk fails, beside a party whose disk doesn't.
use crate::bank::{HOLDING, disk_of, without_power};
use crate::payments::{Answer, Names, PAYMENT, Payment, refused, told};
use key_journal::{Cause, Unmade};
use node_core::Node;
use party_state::State;
use pay_auth::{Ledger, PayTurn};
use std::alloc::Global;
use x_disk::{Disk, Fused, TornDisk};

/// The ledger's disk afterwards, and what became of the payment.
fn ended<D: Disk>(payment: Payment, turn: PayTurn<D>) -> (D, Answer) {
    match turn {
        PayTurn::Done { ledger, out } => (ledger.into_disk(), told(payment, &out)),
        PayTurn::Refused { ledger, cause } => (ledger.into_disk(), refused(cause)),
        PayTurn::Broken(broken) => stopped(broken.give_up()),
        PayTurn::NoMemory(ledger) => (ledger.into_disk(), Answer::Otherwise),
    }
}

/// The same where the disk failed.
fn stopped<D: Disk>(unmade: Unmade<D>) -> (D, Answer) {
    match unmade.cause {
        Cause::Fault => (unmade.disk, Answer::Stopped),
        _ => (unmade.disk, Answer::Otherwise),
    }
}

/// Opens the ledger and makes the payment.
fn made<D: Disk>(
    alloc: Global,
    state: &State,
    disk: D,
    names: &Names,
    payment: Payment,
) -> (D, Answer) {
    let ledger = match Ledger::open_ledger(alloc, disk) {
        Ok(ledger) => ledger,
        Err(unmade) => return stopped(unmade),
    };
    let turn = match payment {
        Payment::Out => ledger.pay(alloc, state, &names.peer, &names.name, names.amount),
        Payment::In => ledger.accept(alloc, state, PAYMENT.as_bytes()),
    };
    ended(payment, turn)
}

/// What becomes of the payments over a party that is open.
fn ends_of(
    alloc: Global,
    state: &State,
    names: &Names,
    payment: Payment,
    calls: u64,
    choice: u64,
) -> Option<[Answer; 3]> {
    let fused = Fused::new(TornDisk::new(alloc, 256).ok()?, calls);
    let (fused, end) = made(alloc, state, fused, names, payment);
    let disk = without_power(fused.into_inner(), choice).ok()?;
    let (disk, first) = made(alloc, state, disk, names, payment);
    let (_, second) = made(alloc, state, disk, names, payment);
    Some([end, first, second])
}

/// What becomes of the payment where the ledger's disk fails after so many calls, and of two more behind it, where its power goes.
pub(crate) fn ends(
    alloc: Global,
    names: &Names,
    payment: Payment,
    calls: u64,
    choice: u64,
) -> Option<[Answer; 3]> {
    let node = Node::open_from(alloc, disk_of(alloc, HOLDING)?).ok()?;
    ends_of(alloc, node.view(), names, payment, calls, choice)
}
