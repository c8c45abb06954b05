// A party has its turn with a message that arrives, or with a command.
ghost use Rattle.std.specs.Prelude.{◌≡◌, ℕ, List, Option, Some};
ghost use Rattle.x_line.specs.declared.order.Order.{Order as TheOrder};
ghost use Rattle.x_line.specs.declared.order.Order.TheVariants.{Take};
ghost use Rattle.call_ends.specs.Transfer.{IsQuiet, TookAtMost};
ghost use Rattle.call_ends.specs.Causes.{HasCause, IsSilent};
ghost use Rattle.call_ends.specs.Commands.{command_of};
ghost use Rattle.party_calls.specs.Obeys.{ExpectsCall, LeavesOthers, Obeys, most_of};

use crate::finish::finish;
use call_ends::{PartyCommand, Status, listen};
use csm_feed::law_one_hearing;
use party_state::Input;
use std::alloc::Global;
use x_base::{Ident, Sink, Source};
use x_disk::Shelf;

/// Hears a message, and gives it to the party.
pub fn take<S: Source, K: Sink, H: Shelf>(
    alloc: Global,
    party: &Ident,
    moment: u64,
    source: &mut S,
    sink: &mut K,
    shelf: &mut H,
) -> Status
    ensures obeys { Obeys (Take party.now) moment result (S.left source.old) (S.left source.new) (K.written sink.old) (K.written sink.new) (H.entry shelf.old) (H.entry shelf.new) }
    ensures expects { IsQuiet (S.faults source.old) (S.faults source.new) → IsQuiet (K.faults sink.old) (K.faults sink.new) → IsQuiet (H.faults shelf.old) (H.faults shelf.new)
        → ExpectsCall (Take party.now) moment (S.left source.old) (H.entry shelf.old) result }
    ensures others { LeavesOthers (Take party.now) result (H.is_back shelf.new) (source.new ≡ source.old) (H.entry shelf.old) (H.entry shelf.new) }
    ensures cause { HasCause result (S.faults source.old) (S.faults source.new) (K.faults sink.old) (K.faults sink.new) (H.faults shelf.old) (H.faults shelf.new) }
    ensures silent { IsSilent result → sink.new ≡ sink.old }
    ensures most { TookAtMost (most_of (Take party.now)) (S.left source.old) (S.left source.new) }
{
    law_one_hearing();
    let arrival = match listen(alloc, source) {
        Ok(arrival) => arrival,
        Err(status) => return status,
    };
    let input = Input::Arrived(arrival);
    let outcome = x_party::turn(alloc, shelf, party, &input, moment);
    finish(sink, outcome, b"\n")
}

/// Gives a party the command that an order has for it.
pub fn command<K: Sink, H: Shelf>(
    alloc: Global,
    given: PartyCommand,
    moment: u64,
    sink: &mut K,
    shelf: &mut H,
) -> Status
    ensures obeys { (order : TheOrder) (left : Option (List ℕ)) → command_of order ≡ Some given → Obeys order moment result left left (K.written sink.old) (K.written sink.new) (H.entry shelf.old) (H.entry shelf.new) }
    ensures expects { (order : TheOrder) (left : Option (List ℕ)) → command_of order ≡ Some given → IsQuiet (K.faults sink.old) (K.faults sink.new) → IsQuiet (H.faults shelf.old) (H.faults shelf.new)
        → ExpectsCall order moment left (H.entry shelf.old) result }
    ensures others { (order : TheOrder) → command_of order ≡ Some given → LeavesOthers order result (H.is_back shelf.new) (Unit {0}) (H.entry shelf.old) (H.entry shelf.new) }
    ensures cause { (read reads : ℕ) → HasCause result read reads (K.faults sink.old) (K.faults sink.new) (H.faults shelf.old) (H.faults shelf.new) }
    ensures silent { IsSilent result → sink.new ≡ sink.old }
{
    let input = Input::Ordered(given.command);
    let outcome = x_party::turn(alloc, shelf, &given.party, &input, moment);
    finish(sink, outcome, b"\n")
}
