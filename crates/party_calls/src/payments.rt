// A payment is taken in.
ghost use Rattle.std.specs.Prelude.{◌≡◌, ◌≢◌, IfSome};
ghost use Rattle.call_ends.specs.Transfer.{IsQuiet, TakesInput};
ghost use Rattle.x_pay.specs.Payments.{accepting};
ghost use Rattle.party_calls.specs.Paid.{FollowsPayment, IsAccepted, payment_limit, payment_taken};
ghost use Rattle.party_calls.specs.Obeys.{LeavesRest};

use crate::finish::finish_payment;
use call_ends::{GatherError, Status, gather};
use std::alloc::Global;
use x_base::{Ident, Sink, Source};
use x_disk::Shelf;

/// How many bytes of a payment are taken at most.
const PAYMENT_LIMIT: usize = 257;

/// Takes the bytes of a payment, and takes it in.
pub fn accept<S: Source, K: Sink, H: Shelf>(
    alloc: Global,
    source: &mut S,
    sink: &mut K,
    shelf: &mut H,
    party: &Ident,
    ledger: &Ident,
) -> Status
    requires { party.now ≢ ledger.now }
    ensures accepted { IsAccepted party.now ledger.now (S.left source.old) (S.left source.new) (H.entry shelf.old) (H.entry shelf.new) result (K.written sink.old) (K.written sink.new) }
    ensures follows { IsQuiet (S.faults source.old) (S.faults source.new) → IsQuiet (K.faults sink.old) (K.faults sink.new) → IsQuiet (H.faults shelf.old) (H.faults shelf.new)
        → IfSome (S.left source.old) (λ all. FollowsPayment (accepting (payment_taken all)) party.now (H.entry shelf.old party.now) (H.entry shelf.old ledger.now) result) }
    ensures rest { LeavesRest party.now ledger.now result (H.is_back shelf.new) (sink.new ≡ sink.old) (H.entry shelf.old) (H.entry shelf.new) (K.faults sink.old) (K.faults sink.new) (H.faults shelf.old) (H.faults shelf.new) }
    ensures input { TakesInput payment_limit result (S.left source.old) (S.left source.new) (S.faults source.old) (S.faults source.new) }
{
    let input = match gather(alloc, source, PAYMENT_LIMIT) {
        Ok(input) => input,
        Err(GatherError::Fault) => return Status::ReadFault,
        Err(GatherError::NoMemory) => return Status::NoMemory,
    };
    let outcome = x_pay::accept(alloc, shelf, party, ledger, input.bytes());
    finish_payment(sink, outcome)
}
