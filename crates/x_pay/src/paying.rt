// A payment is paid out.
ghost use Rattle.std.specs.Prelude.{◌≢◌};
ghost use Rattle.x_pay.specs.Outcomes.{MakesPayment, IsSafePayment, LeavesShelf};
ghost use Rattle.x_pay.specs.Dues.{GivesDue};
ghost use Rattle.x_pay.specs.Payments.{paying};

use crate::acting::pay_over;
use crate::closing::{closed, failure};
use crate::laws::law_one_due;
use crate::outcome::PayOutcome;
use disk_pair::{fetch_two, put_back_two};
use std::alloc::Global;
use x_base::{Count, Ident, KeyName};
use x_disk::Shelf;

/// Pays an amount to a peer under a key of the party, with the ledger of that name, which differs from the party's. The party's
/// disk stays as it is; both disks are put back, whatever comes.
pub fn pay<H: Shelf>(
    alloc: Global,
    shelf: &mut H,
    party: &Ident,
    peer: &Ident,
    name: &KeyName,
    ledger: &Ident,
    amount: Count,
) -> PayOutcome
    requires { party.now ≢ ledger.now }
    ensures paid { MakesPayment (paying peer.now name.now amount) party.now (H.entry shelf.old party.now) (H.entry shelf.old ledger.now) (H.entry shelf.new ledger.now) result }
    ensures safe { IsSafePayment (paying peer.now name.now amount) party.now (H.entry shelf.old party.now) (H.entry shelf.new party.now) (H.entry shelf.old ledger.now) (H.entry shelf.new ledger.now) }
    ensures due { GivesDue (paying peer.now name.now amount) party.now (H.entry shelf.old party.now) (H.entry shelf.old ledger.now) result }
    ensures shelf { LeavesShelf party.now ledger.now result (H.is_back shelf.new party.now) (H.is_back shelf.new ledger.now) (H.entry shelf.old) (H.entry shelf.new) (H.faults shelf.old) (H.faults shelf.new) }
{
    law_one_due();
    let disks = match fetch_two(shelf, party, ledger) {
        Ok(disks) => disks,
        Err(cause) => return failure(cause),
    };
    let (disks, outcome) = pay_over(alloc, disks, party, peer, name, amount);
    closed(outcome, put_back_two(shelf, party, ledger, disks))
}
