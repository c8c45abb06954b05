// An order is done that is no scenario, drill or audit.
ghost use Rattle.std.specs.Prelude.{◌≡◌, ◌≢◌, ℕ};
ghost use Rattle.x_line.specs.declared.order.Order.TheVariants.{Audit, Drill, Replay};
ghost use Rattle.call_ends.specs.Transfer.{IsQuiet, TookAtMost};
ghost use Rattle.call_ends.specs.Causes.{HasCause, IsSilent};
ghost use Rattle.party_calls.specs.Obeys.{ExpectsCall, IsWithin, LeavesOthers, Obeys, most_of};

use crate::entering::{create, enter};
use crate::payments::accept;
use crate::spooling::{batch, spool};
use crate::tending::tend;
use crate::turning::{command, take};
use call_ends::{Status, check, command_of};
use party_tables::LinkKey;
use std::alloc::Global;
use x_base::{Sink, Source};
use x_disk::Shelf;
use x_line::Order;

/// Does what an order says: checks a message, or does something at a party, over one disk, or with a batch.
pub fn obey<S: Source, K: Sink, H: Shelf>(
    alloc: Global,
    order: Order,
    moment: u64,
    source: &mut S,
    sink: &mut K,
    shelf: &mut H,
) -> Status
    requires within { IsWithin order }
    requires replays { order ≢ Replay }
    requires audits { order ≢ Audit }
    requires drills { (seed events : ℕ) → order ≢ Drill seed events }
    ensures obeys { Obeys order moment result (S.left source.old) (S.left source.new) (K.written sink.old) (K.written sink.new) (H.entry shelf.old) (H.entry shelf.new) }
    ensures expects { IsQuiet (S.faults source.old) (S.faults source.new) → IsQuiet (K.faults sink.old) (K.faults sink.new) → IsQuiet (H.faults shelf.old) (H.faults shelf.new)
        → ExpectsCall order moment (S.left source.old) (H.entry shelf.old) result }
    ensures others { LeavesOthers order result (H.is_back shelf.new) (source.new ≡ source.old) (H.entry shelf.old) (H.entry shelf.new) }
    ensures cause { HasCause result (S.faults source.old) (S.faults source.new) (K.faults sink.old) (K.faults sink.new) (H.faults shelf.old) (H.faults shelf.new) }
    ensures silent { IsSilent result → sink.new ≡ sink.old }
    ensures most { TookAtMost (most_of order) (S.left source.old) (S.left source.new) }
{
    match order {
        Order::Check => check(alloc, source, sink),
        Order::Take { party } => take(alloc, &party, moment, source, sink, shelf),
        Order::Accept { party, ledger } => accept(alloc, source, sink, shelf, &party, &ledger),
        Order::Batch => batch(alloc, moment, source, sink),
        Order::Spool { party, spool: name } => spool(alloc, source, sink, shelf, &party, &name),
        Order::Create { party, role } => create(alloc, source, sink, shelf, party, role),
        Order::Enter {
            party,
            peer,
            label,
            side,
        } => {
            let key = LinkKey { peer, label, side };
            enter(alloc, source, sink, shelf, &party, key, moment)
        }
        _ => match command_of(order) {
            Some(given) => command(alloc, given, moment, sink, shelf),
            None => tend(alloc, &order, sink, shelf),
        },
    }
}
