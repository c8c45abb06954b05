// An order of a party with one disk, or of none.
ghost use Rattle.std.specs.Prelude.{◌≡◌, ℕ, None};
ghost use Rattle.x_line.specs.declared.order.Order.TheVariants.{Audit, Drill, Replay};
ghost use Rattle.call_ends.specs.Transfer.{IsQuiet, TookAtMost};
ghost use Rattle.call_ends.specs.Causes.{HasCause};
ghost use Rattle.party_calls.specs.Notice.{LeavesNotice};
ghost use Rattle.party_calls.specs.Obeys.{IsWithin, LeavesOthers, Obeys, most_of};
ghost use Rattle.x917.specs.Audited.{IsAudit};
ghost use Rattle.x917.specs.Drilled.{IsDrill};
ghost use Rattle.x917.specs.Expects.{Expects, IsSilentOf};
ghost use Rattle.x917.specs.Headline.{IsReplay};

use crate::auditing::audit_all;
use crate::drilling::drill_all;
use crate::replaying::replay_all;
use call_ends::Status;
use party_calls::{obey, take_with_notice};
use std::alloc::Global;
use x_base::{Sink, Source, Text};
use x_disk::{MemoryShelf, Shelf};
use x_line::Order;

/// Does what an order says. Where it is to be told of a message that is taken, its notice is left.
pub(crate) fn carry_out<S: Source, K: Sink, H: Shelf>(
    alloc: Global,
    order: Order,
    tell: bool,
    moment: u64,
    source: &mut S,
    sink: &mut K,
    shelf: &mut H,
    notice: &mut Option<Text>,
) -> Status
    requires within { IsWithin order }
    requires none { notice.now ≡ None }
    ensures obeys { Obeys order moment result (S.left source.old) (S.left source.new) (K.written sink.old) (K.written sink.new) (H.entry shelf.old) (H.entry shelf.new) }
    ensures expects { IsQuiet (S.faults source.old) (S.faults source.new) → IsQuiet (K.faults sink.old) (K.faults sink.new) → IsQuiet (H.faults shelf.old) (H.faults shelf.new)
        → Expects order moment (S.left source.old) (H.entry shelf.old) result }
    ensures others { LeavesOthers order result (H.is_back shelf.new) (source.new ≡ source.old) (H.entry shelf.old) (H.entry shelf.new) }
    ensures cause { HasCause result (S.faults source.old) (S.faults source.new) (K.faults sink.old) (K.faults sink.new) (H.faults shelf.old) (H.faults shelf.new) }
    ensures silent { IsSilentOf order result → sink.new ≡ sink.old }
    ensures most { TookAtMost (most_of order) (S.left source.old) (S.left source.new) }
    ensures replays { order ≡ Replay → IsReplay result (S.left source.old) (S.left source.new) (K.written sink.old) (K.written sink.new) (H.entry shelf.old) (H.entry shelf.new) (H.faults shelf.old) (H.faults shelf.new) }
    ensures drills { (seed events : ℕ) → order ≡ Drill seed events
        → IsDrill ⟦<MemoryShelf as Shelf>⟧.entry seed events result (K.written sink.old) (K.written sink.new) × (source.new ≡ source.old) × (shelf.new ≡ shelf.old) }
    ensures audits { order ≡ Audit → IsAudit result (S.left source.old) (S.left source.new) (K.written sink.old) (K.written sink.new) × (shelf.new ≡ shelf.old) }
    ensures notice { LeavesNotice tell order moment result (S.left source.old) (H.entry shelf.old) notice.new }
{
    match order {
        Order::Replay => replay_all(alloc, source, sink, shelf),
        Order::Audit => audit_all(alloc, source, sink),
        Order::Drill { seed, events } => drill_all(alloc, seed, events, sink),
        Order::Take { party } => {
            if tell {
                return take_with_notice(alloc, &party, moment, source, sink, shelf, notice);
            }
            obey(alloc, order, moment, source, sink, shelf)
        }
        _ => obey(alloc, order, moment, source, sink, shelf),
    }
}
