// The file of a party is looked after, paid out of, or a spool looked at.
ghost use Rattle.std.specs.Prelude.{◌≡◌, ℕ, List, Option, true};
ghost use Rattle.call_ends.specs.Transfer.{IsQuiet};
ghost use Rattle.call_ends.specs.Causes.{HasCause, IsSilent};
ghost use Rattle.party_calls.specs.Obeys.{ExpectsCall, IsWithin, LeavesOthers, Obeys, is_tended};

use crate::comparing::compare;
use crate::finish::{finish, finish_payment};
use crate::spooling::outbox;
use call_ends::Status;
use party_tables::LinkKey;
use std::alloc::Global;
use x_base::Sink;
use x_disk::Shelf;
use x_gen::Gen;
use x_line::Order;

/// Begins, shows, compares or looks after the file of a party, pays out of it, or looks at a spool, as an order says.
pub fn tend<K: Sink, H: Shelf>(alloc: Global, order: &Order, sink: &mut K, shelf: &mut H) -> Status
    requires tended { is_tended order.now ≡ true }
    requires within { IsWithin order.now }
    ensures obeys { (moment : ℕ) (left : Option (List ℕ)) → Obeys order.now moment result left left (K.written sink.old) (K.written sink.new) (H.entry shelf.old) (H.entry shelf.new) }
    ensures expects { (moment : ℕ) (left : Option (List ℕ)) → IsQuiet (K.faults sink.old) (K.faults sink.new) → IsQuiet (H.faults shelf.old) (H.faults shelf.new)
        → ExpectsCall order.now moment left (H.entry shelf.old) result }
    ensures others { LeavesOthers order.now result (H.is_back shelf.new) (Unit {0}) (H.entry shelf.old) (H.entry shelf.new) }
    ensures cause { (read reads : ℕ) → HasCause result read reads (K.faults sink.old) (K.faults sink.new) (H.faults shelf.old) (H.faults shelf.new) }
    ensures silent { IsSilent result → sink.new ≡ sink.old }
{
    match *order {
        Order::Init {
            party,
            role,
            key,
            v,
        } => {
            let outcome = x_party::create(alloc, shelf, party, role, Gen { key, v });
            finish(sink, outcome, b"")
        }
        Order::Show { party } => finish(sink, x_party::show(alloc, shelf, &party), b""),
        Order::Value {
            party,
            peer,
            label,
            side,
        } => {
            let key = LinkKey { peer, label, side };
            let outcome = x_party::value(alloc, shelf, &party, key);
            finish(sink, outcome, b"\n")
        }
        Order::Compact { party } => finish(sink, x_party::compact(alloc, shelf, &party), b""),
        Order::Migrate { party } => finish(sink, x_party::migrate(alloc, shelf, &party), b""),
        Order::Wipe { party } => finish(sink, x_party::wipe(alloc, shelf, &party), b""),
        Order::Compare { party, mirror } => compare(alloc, sink, shelf, &party, &mirror),
        Order::Pay {
            party,
            peer,
            name,
            ledger,
            amount,
        } => {
            let outcome = x_pay::pay(alloc, shelf, &party, &peer, &name, &ledger, amount);
            finish_payment(sink, outcome)
        }
        Order::Outbox { spool } => outbox(alloc, sink, shelf, &spool),
        _ => unreachable!(),
    }
}
