// Payments over a shelf whose disks fail.
use crate::bank::{HOLDING, disk_of, without_power};
use crate::payments::{Answer, Names, PAYMENT, Payment, refused, told};
use std::alloc::Global;
use x_base::Ident;
use x_disk::{Disk, FusedShelf, MemoryShelf, Shelf};
use x_pay::{PayOutcome, accept, pay};

/// Makes the payment, unless the ledger has the party's name.
fn made<H: Shelf>(alloc: Global, shelf: &mut H, names: &Names, payment: Payment) -> Answer {
    if names.own == names.ledger {
        return Answer::Otherwise;
    }
    let outcome = match payment {
        Payment::Out => pay(
            alloc,
            shelf,
            &names.own,
            &names.peer,
            &names.name,
            &names.ledger,
            names.amount,
        ),
        Payment::In => accept(alloc, shelf, &names.own, &names.ledger, PAYMENT.as_bytes()),
    };
    match outcome {
        PayOutcome::Done { text } => told(payment, &text),
        PayOutcome::Refused(cause) => refused(cause),
        PayOutcome::Fault => Answer::Stopped,
        _ => Answer::Otherwise,
    }
}

/// The power of a disk goes.
fn power_goes(shelf: &mut MemoryShelf, name: &Ident, choice: u64) -> Option<()> {
    let disk = shelf.fetch(name).ok()?;
    shelf.put_back(name, without_power(disk, choice).ok()?).ok()
}

/// What becomes of the payment where each of the two disks fails after so many calls, and of two more behind it, where the power
/// of both goes.
pub(crate) fn ends(
    alloc: Global,
    names: &Names,
    payment: Payment,
    calls: u64,
    choice: u64,
) -> Option<[Answer; 3]> {
    let mut shelf = MemoryShelf::new(alloc);
    shelf.put_back(&names.own, disk_of(alloc, HOLDING)?).ok()?;
    let mut fused = FusedShelf::new(shelf, u64::MAX, calls);
    let end = made(alloc, &mut fused, names, payment);
    let mut shelf = fused.into_inner();
    power_goes(&mut shelf, &names.own, choice)?;
    power_goes(&mut shelf, &names.ledger, choice)?;
    let first = made(alloc, &mut shelf, names, payment);
    let second = made(alloc, &mut shelf, names, payment);
    Some([end, first, second])
}
