// The ledger acts, and what became of it.
ghost use Rattle.std.specs.Prelude.{◌≡◌};
ghost use Rattle.x_pay.specs.Payments.{paying, accepting};
ghost use Rattle.x_pay.specs.Steps.{HasActed, turn_disk, outcome_of_turn};

use crate::opening::{open_both, outcome_of};
use crate::outcome::PayOutcome;
use disk_pair::Disks;
use journal_state::law_one_finding;
use pay_auth::{Entries, PayTurn};
use std::alloc::Global;
use x_base::{Count, Ident, KeyName};
use x_disk::Disk;

/// The ledger's disk afterwards, and what became of the payment.
fn ended<D: Disk>(turn: PayTurn<D>) -> (D, PayOutcome)
    ensures disk { result.0 ≡ turn_disk turn }
    ensures outcome { result.1 ≡ outcome_of_turn turn }
{
    match turn {
        PayTurn::Done { ledger, out } => (ledger.into_disk(), PayOutcome::Done { text: out }),
        PayTurn::Refused { ledger, cause } => (ledger.into_disk(), PayOutcome::Refused(cause)),
        PayTurn::Broken(broken) => {
            let unmade = broken.give_up();
            (unmade.disk, outcome_of(unmade.cause))
        }
        PayTurn::NoMemory(ledger) => (ledger.into_disk(), PayOutcome::NoMemory),
    }
}

/// Pays over the two disks.
pub(crate) fn pay_over<D: Disk>(
    alloc: Global,
    disks: Disks<D>,
    party: &Ident,
    peer: &Ident,
    name: &KeyName,
    amount: Count,
) -> (Disks<D>, PayOutcome)
    ensures { HasActed (paying peer.now name.now amount) party.now D.told disks result.0 result.1 }
{
    law_one_finding::<Entries>();
    match open_both(alloc, disks, party) {
        Ok(opened) => {
            let turn = opened
                .ledger
                .pay(alloc, opened.node.view(), peer, name, amount);
            let (second, outcome) = ended(turn);
            let first = opened.node.into_disk();
            (Disks { first, second }, outcome)
        }
        Err(unopened) => (unopened.disks, unopened.outcome),
    }
}

/// Takes a payment in over the two disks.
pub(crate) fn accept_over<D: Disk>(
    alloc: Global,
    disks: Disks<D>,
    party: &Ident,
    bytes: &[u8],
) -> (Disks<D>, PayOutcome)
    ensures { HasActed (accepting bytes.now) party.now D.told disks result.0 result.1 }
{
    law_one_finding::<Entries>();
    match open_both(alloc, disks, party) {
        Ok(opened) => {
            let turn = opened.ledger.accept(alloc, opened.node.view(), bytes);
            let (second, outcome) = ended(turn);
            let first = opened.node.into_disk();
            (Disks { first, second }, outcome)
        }
        Err(unopened) => (unopened.disks, unopened.outcome),
    }
}
