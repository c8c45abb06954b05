// A message is taken, with its notice.
ghost use Rattle.std.specs.Prelude.{◌≡◌, true, None};
ghost use Rattle.x_line.specs.declared.order.Order.TheVariants.{Take};
ghost use Rattle.call_ends.specs.Transfer.{IsQuiet, TookAtMost};
ghost use Rattle.call_ends.specs.Causes.{HasCause, IsSilent};
ghost use Rattle.party_calls.specs.Notice.{LeavesNotice, notice_at};
ghost use Rattle.party_calls.specs.Obeys.{ExpectsCall, LeavesOthers, Obeys, most_of};

use crate::finish::finish;
use call_ends::{Status, listen};
use csm_feed::law_one_hearing;
use std::alloc::Global;
use x_base::{Ident, Sink, Source, Text};
use x_disk::Shelf;
use x_party::turn_with_notice;

/// The notice, where the status is done.
pub(crate) fn notice_at(status: &Status, notice: Option<Text>) -> Option<Text>
    ensures { result ≡ notice_at status.now notice }
{
    match status {
        Status::Done => notice,
        _ => None,
    }
}

/// Takes a message, with its notice where it is done.
pub fn take_with_notice<S: Source, K: Sink, H: Shelf>(
    alloc: Global,
    party: &Ident,
    moment: u64,
    source: &mut S,
    sink: &mut K,
    shelf: &mut H,
    notice: &mut Option<Text>,
) -> Status
    requires { notice.now ≡ None }
    ensures obeys { Obeys (Take party.now) moment result (S.left source.old) (S.left source.new) (K.written sink.old) (K.written sink.new) (H.entry shelf.old) (H.entry shelf.new) }
    ensures expects { IsQuiet (S.faults source.old) (S.faults source.new) → IsQuiet (K.faults sink.old) (K.faults sink.new) → IsQuiet (H.faults shelf.old) (H.faults shelf.new)
        → ExpectsCall (Take party.now) moment (S.left source.old) (H.entry shelf.old) result }
    ensures others { LeavesOthers (Take party.now) result (H.is_back shelf.new) (source.new ≡ source.old) (H.entry shelf.old) (H.entry shelf.new) }
    ensures cause { HasCause result (S.faults source.old) (S.faults source.new) (K.faults sink.old) (K.faults sink.new) (H.faults shelf.old) (H.faults shelf.new) }
    ensures silent { IsSilent result → sink.new ≡ sink.old }
    ensures most { TookAtMost (most_of (Take party.now)) (S.left source.old) (S.left source.new) }
    ensures notice { LeavesNotice true (Take party.now) moment result (S.left source.old) (H.entry shelf.old) notice.new }
{
    law_one_hearing();
    let arrival = match listen(alloc, source) {
        Ok(arrival) => arrival,
        Err(status) => return status,
    };
    let turn = turn_with_notice(alloc, shelf, party, arrival, moment);
    let status = finish(sink, turn.outcome, b"\n");
    *notice = notice_at(&status, turn.notice);
    status
}
