// An order of a party that is kept on two disks.
ghost use Rattle.std.specs.Prelude.{◌≡◌};
ghost use Rattle.call_ends.specs.Transfer.{TookAtMost};
ghost use Rattle.x_line.specs.Orders.{IsOfTwo};
ghost use Rattle.call_ends.specs.Causes.{HasCause, IsSilent};
ghost use Rattle.party_calls.specs.Mirrored.{LeavesMirrored, ObeysMirrored};
ghost use Rattle.party_calls.specs.Notice.{LeavesMirroredNotice};
ghost use Rattle.party_calls.specs.Obeys.{most_of};

use crate::entering_mirrored::{create_mirrored, enter_mirrored};
use crate::finish::finish;
use crate::turning_mirrored::{command_mirrored, take_mirrored};
use call_ends::{Status, command_of};
use party_tables::LinkKey;
use std::alloc::Global;
use x_base::{Ident, Sink, Source, Text};
use x_disk::Shelf;
use x_gen::Gen;
use x_line::Order;
use x_pair::{create_pair, show_pair};

/// Does what an order says, over the party's two disks, the second of that name. Both are put back before anything is written.
/// Where it is to be told of a message that is taken, its notice is left.
pub fn carry_out_mirrored<S: Source, K: Sink, H: Shelf>(
    alloc: Global,
    order: Order,
    mirror: &Ident,
    tell: bool,
    moment: u64,
    source: &mut S,
    sink: &mut K,
    shelf: &mut H,
    notice: &mut Option<Text>,
) -> Status
    requires { IsOfTwo order mirror.now }
    ensures obeys { ObeysMirrored order mirror.now moment result (S.left source.old) (S.left source.new) (K.written sink.old) (K.written sink.new) (H.entry shelf.old) (H.entry shelf.new) }
    ensures others { LeavesMirrored order mirror.now result (H.is_back shelf.new) (source.new ≡ source.old) (H.entry shelf.old) (H.entry shelf.new) }
    ensures cause { HasCause result (S.faults source.old) (S.faults source.new) (K.faults sink.old) (K.faults sink.new) (H.faults shelf.old) (H.faults shelf.new) }
    ensures silent { IsSilent result → sink.new ≡ sink.old }
    ensures most { TookAtMost (most_of order) (S.left source.old) (S.left source.new) }
    ensures notice { LeavesMirroredNotice tell order mirror.now moment result (S.left source.old) (H.entry shelf.old) notice.new }
{
    *notice = None;
    match order {
        Order::Init {
            party,
            role,
            key,
            v,
        } => {
            let outcome = create_pair(alloc, shelf, party, mirror, role, Gen { key, v });
            finish(sink, outcome, b"")
        }
        Order::Create { party, role } => {
            create_mirrored(alloc, source, sink, shelf, party, mirror, role)
        }
        Order::Enter {
            party,
            peer,
            label,
            side,
        } => {
            let key = LinkKey { peer, label, side };
            enter_mirrored(alloc, source, sink, shelf, &party, mirror, key, moment)
        }
        Order::Show { party } => {
            let outcome = show_pair(alloc, shelf, &party, mirror);
            finish(sink, outcome, b"")
        }
        Order::Take { party } => take_mirrored(
            alloc, &party, mirror, tell, moment, source, sink, shelf, notice,
        ),
        _ => match command_of(order) {
            Some(given) => command_mirrored(alloc, given, mirror, moment, sink, shelf),
            None => unreachable!(),
        },
    }
}
