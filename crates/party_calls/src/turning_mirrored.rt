// A party that is kept on two disks has its turn with a message that arrives, or with a command.
ghost use Rattle.std.specs.Prelude.{◌≡◌, ◌≢◌, ℕ, true, false, List, Option, Some, None};
ghost use Rattle.party_state.specs.declared.command.Input.TheVariants.{Arrived};
ghost use Rattle.x_line.specs.Orders.{IsOfTwo};
ghost use Rattle.x_line.specs.declared.order.Order.{Order as TheOrder};
ghost use Rattle.x_line.specs.declared.order.Order.TheVariants.{Take};
ghost use Rattle.call_ends.specs.Transfer.{TookAtMost};
ghost use Rattle.call_ends.specs.Causes.{HasCause, IsSilent};
ghost use Rattle.call_ends.specs.Commands.{command_of};
ghost use Rattle.x_pair.specs.Dues.{GivesDuePair, IsDueTurn};
ghost use Rattle.x_pair.specs.Notices.{HasPairNotice};
ghost use Rattle.x_pair.specs.Outcomes.{IsSafePair, LeavesBoth, MakesPair, turning};
ghost use Rattle.party_calls.specs.Mirrored.{LeavesMirrored, ObeysMirrored};
ghost use Rattle.party_calls.specs.Notice.{LeavesMirroredNotice};
ghost use Rattle.party_calls.specs.Obeys.{most_of};

use crate::finish::finish;
use crate::notice::notice_at;
use call_ends::{PartyCommand, Status, listen};
use csm_grammar::Arrival;
use party_state::Input;
use std::alloc::Global;
use x_base::{Ident, Sink, Source, Text};
use x_disk::Shelf;
use x_pair::{turn_pair, turn_pair_with_notice};
use x_party::TurnWithNotice;

/// The turn of the party with a message, and its notice where that is wanted.
fn turn_told<H: Shelf>(
    alloc: Global,
    shelf: &mut H,
    party: &Ident,
    mirror: &Ident,
    arrival: Arrival,
    tell: bool,
    moment: u64,
) -> TurnWithNotice
    requires { party.now ≢ mirror.now }
    ensures turned { MakesPair (turning party.now (Arrived arrival) moment) (H.entry shelf.old party.now) (H.entry shelf.old mirror.now) (H.entry shelf.new party.now) (H.entry shelf.new mirror.now) result.outcome }
    ensures safe { IsSafePair (turning party.now (Arrived arrival) moment) (H.entry shelf.old party.now) (H.entry shelf.old mirror.now) (H.entry shelf.new party.now) (H.entry shelf.new mirror.now) }
    ensures due { GivesDuePair (H.entry shelf.old party.now) (H.entry shelf.old mirror.now) (IsDueTurn party.now (Arrived arrival) moment) result.outcome }
    ensures shelf { LeavesBoth party.now mirror.now result.outcome (H.is_back shelf.new party.now) (H.is_back shelf.new mirror.now) (H.entry shelf.old) (H.entry shelf.new) (H.faults shelf.old) (H.faults shelf.new) }
    ensures notice { tell ≡ true → HasPairNotice (H.entry shelf.old party.now) (H.entry shelf.old mirror.now) arrival moment result.outcome result.notice }
    ensures no_notice { tell ≡ false → result.notice ≡ None }
{
    if tell {
        return turn_pair_with_notice(alloc, shelf, party, mirror, arrival, moment);
    }
    let input = Input::Arrived(arrival);
    let outcome = turn_pair(alloc, shelf, party, mirror, &input, moment);
    TurnWithNotice {
        outcome,
        notice: None,
    }
}

/// Hears a message, and gives it to the party, with its notice where that is wanted and it is done.
pub fn take_mirrored<S: Source, K: Sink, H: Shelf>(
    alloc: Global,
    party: &Ident,
    mirror: &Ident,
    tell: bool,
    moment: u64,
    source: &mut S,
    sink: &mut K,
    shelf: &mut H,
    notice: &mut Option<Text>,
) -> Status
    requires two { IsOfTwo (Take party.now) mirror.now }
    requires none { notice.now ≡ None }
    ensures obeys { ObeysMirrored (Take party.now) mirror.now moment result (S.left source.old) (S.left source.new) (K.written sink.old) (K.written sink.new) (H.entry shelf.old) (H.entry shelf.new) }
    ensures others { LeavesMirrored (Take party.now) mirror.now result (H.is_back shelf.new) (source.new ≡ source.old) (H.entry shelf.old) (H.entry shelf.new) }
    ensures cause { HasCause result (S.faults source.old) (S.faults source.new) (K.faults sink.old) (K.faults sink.new) (H.faults shelf.old) (H.faults shelf.new) }
    ensures silent { IsSilent result → sink.new ≡ sink.old }
    ensures most { TookAtMost (most_of (Take party.now)) (S.left source.old) (S.left source.new) }
    ensures notice { LeavesMirroredNotice tell (Take party.now) mirror.now moment result (S.left source.old) (H.entry shelf.old) notice.new }
{
    let arrival = match listen(alloc, source) {
        Ok(arrival) => arrival,
        Err(status) => return status,
    };
    let turn = turn_told(alloc, shelf, party, mirror, arrival, tell, moment);
    let status = finish(sink, turn.outcome, b"\n");
    *notice = notice_at(&status, turn.notice);
    status
}

/// Gives the party the command that an order has for it.
pub fn command_mirrored<K: Sink, H: Shelf>(
    alloc: Global,
    given: PartyCommand,
    mirror: &Ident,
    moment: u64,
    sink: &mut K,
    shelf: &mut H,
) -> Status
    requires { given.party ≢ mirror.now }
    ensures obeys { (order : TheOrder) (left : Option (List ℕ)) → IsOfTwo order mirror.now → command_of order ≡ Some given → ObeysMirrored order mirror.now moment result left left (K.written sink.old) (K.written sink.new) (H.entry shelf.old) (H.entry shelf.new) }
    ensures others { (order : TheOrder) → command_of order ≡ Some given → LeavesMirrored order mirror.now result (H.is_back shelf.new) (Unit {0}) (H.entry shelf.old) (H.entry shelf.new) }
    ensures cause { (read reads : ℕ) → HasCause result read reads (K.faults sink.old) (K.faults sink.new) (H.faults shelf.old) (H.faults shelf.new) }
    ensures silent { IsSilent result → sink.new ≡ sink.old }
{
    let input = Input::Ordered(given.command);
    let outcome = turn_pair(alloc, shelf, &given.party, mirror, &input, moment);
    finish(sink, outcome, b"\n")
}
