// A batch is made, taken at a party, and its outbox looked at.
ghost use Rattle.std.specs.Prelude.{◌≡◌, ◌≢◌, ℕ, Some, IfSome, IfOk, IfErr};
ghost use Rattle.x_base.specs.Edge.{Rose};
ghost use Rattle.csm_batch.specs.Batches.{IsBatch};
ghost use Rattle.call_ends.specs.Transfer.{GivesOutput, IsQuiet, TakesInput, TookAtMost};
ghost use Rattle.call_ends.specs.Causes.{HasCause, IsSilent};
ghost use Rattle.party_calls.specs.Batched.{FollowsInbox, IsMade};
ghost use Rattle.party_calls.specs.Obeys.{LeavesRest};
ghost use Rattle.party_calls.specs.Spooled.{FollowsBatch, FollowsOutbox, IsBatched, IsOutboxCall, IsUnbatched, LeavesSpool, TakesBatch, batch_limit};

use crate::finish::{finish_batch, finish_outbox};
use call_ends::{GatherError, Refusal, Status, gather, put_text};
use csm_batch::{Batch, BatchFault, law_bad_in_front, law_one_reading};
use csm_feed::Unheard;
use std::alloc::Global;
use x_base::{Ident, Sink, Source};
use x_disk::Shelf;
use x_spool::{InboxFault, inbox_lines, law_one_inbox};

/// How many bytes of a batch, or of messages for one, are taken at most.
const BATCH_LIMIT: usize = 1_048_577;

/// Takes the bytes of a batch, and reads it.
fn take_batch<S: Source>(alloc: Global, source: &mut S) -> Result<Batch, Status>
    ensures batch { IfOk result (λ b. IsBatch b.0 b.1) }
    ensures takes { IfOk result (λ b. TakesBatch (S.left source.old) (S.left source.new) b.0) }
    ensures none { IfErr result (IsUnbatched (S.left source.old)) }
    ensures read_fault { IfErr result (λ s. s ≡ Status.ReadFault → Rose (S.faults source.old) (S.faults source.new)) }
    ensures most { TookAtMost batch_limit (S.left source.old) (S.left source.new) }
{
    law_bad_in_front();
    let input = match gather(alloc, source, BATCH_LIMIT) {
        Ok(input) => input,
        Err(GatherError::Fault) => return Err(Status::ReadFault),
        Err(GatherError::NoMemory) => return Err(Status::NoMemory),
    };
    match Batch::read(alloc, input.bytes()) {
        Ok(batch) => {
            batch.bytes();
            Ok(batch)
        }
        Err(BatchFault::BadLine(number)) => Err(Status::BadScenario(number)),
        Err(BatchFault::NoMemory) => Err(Status::NoMemory),
    }
}

/// Takes the bytes of a batch, and drives it at a party over a spool. Both disks are put back before anything is written.
pub fn spool<S: Source, K: Sink, H: Shelf>(
    alloc: Global,
    source: &mut S,
    sink: &mut K,
    shelf: &mut H,
    party: &Ident,
    spool: &Ident,
) -> Status
    requires { party.now ≢ spool.now }
    ensures batched { IsBatched party.now spool.now (S.left source.old) (S.left source.new) (H.entry shelf.old) (H.entry shelf.new) result (K.written sink.old) (K.written sink.new) }
    ensures follows { IsQuiet (S.faults source.old) (S.faults source.new) → IsQuiet (K.faults sink.old) (K.faults sink.new) → IsQuiet (H.faults shelf.old) (H.faults shelf.new)
        → IfSome (S.left source.old) (λ all. FollowsBatch party.now spool.now all (H.entry shelf.old) result) }
    ensures rest { LeavesRest party.now spool.now result (H.is_back shelf.new) (sink.new ≡ sink.old) (H.entry shelf.old) (H.entry shelf.new) (K.faults sink.old) (K.faults sink.new) (H.faults shelf.old) (H.faults shelf.new) }
    ensures input { TakesInput batch_limit result (S.left source.old) (S.left source.new) (S.faults source.old) (S.faults source.new) }
{
    law_one_reading();
    let batch = match take_batch(alloc, source) {
        Ok(batch) => batch,
        Err(status) => return status,
    };
    let outcome = x_spool::spool(alloc, shelf, party, spool, &batch);
    finish_batch(sink, outcome)
}

/// Writes the outbox of a spool. Nothing is written to its disk, which is put back before anything is written out.
pub fn outbox<K: Sink, H: Shelf>(alloc: Global, sink: &mut K, shelf: &mut H, name: &Ident) -> Status
    ensures told { IsOutboxCall (H.entry shelf.old name.now) (H.entry shelf.new name.now) result (K.written sink.old) (K.written sink.new) }
    ensures follows { IsQuiet (K.faults sink.old) (K.faults sink.new) → IsQuiet (H.faults shelf.old) (H.faults shelf.new) → FollowsOutbox (H.entry shelf.old name.now) result }
    ensures rest { LeavesSpool name.now result (H.is_back shelf.new) (sink.new ≡ sink.old) (H.entry shelf.old) (H.entry shelf.new) (K.faults sink.old) (K.faults sink.new) (H.faults shelf.old) (H.faults shelf.new) }
    ensures cause { (read reads : ℕ) → HasCause result read reads (K.faults sink.old) (K.faults sink.new) (H.faults shelf.old) (H.faults shelf.new) }
{
    let outcome = x_spool::outbox(alloc, shelf, name);
    finish_outbox(sink, outcome)
}

/// Takes messages, and writes each as the line of a batch by which it arrives at this moment.
pub fn batch<S: Source, K: Sink>(alloc: Global, moment: u64, source: &mut S, sink: &mut K) -> Status
    ensures made { IsMade moment (S.left source.old) (S.left source.new) result (K.written sink.old) (K.written sink.new) }
    ensures follows { IsQuiet (S.faults source.old) (S.faults source.new) → IsQuiet (K.faults sink.old) (K.faults sink.new) → IfSome (S.left source.old) (λ all. FollowsInbox all result) }
    ensures input { TakesInput batch_limit result (S.left source.old) (S.left source.new) (S.faults source.old) (S.faults source.new) }
    ensures output { GivesOutput result (IsSilent result) (sink.new ≡ sink.old) (K.faults sink.old) (K.faults sink.new) }
{
    law_one_inbox();
    let input = match gather(alloc, source, BATCH_LIMIT) {
        Ok(input) => input,
        Err(GatherError::Fault) => return Status::ReadFault,
        Err(GatherError::NoMemory) => return Status::NoMemory,
    };
    if input.bytes().len() == BATCH_LIMIT {
        return Status::Refused(Refusal::Unheard(Unheard::Trailing(BATCH_LIMIT as u64 - 1)));
    }
    match inbox_lines(alloc, moment, input.bytes()) {
        Ok(lines) => put_text(sink, Some(lines), b"", Status::Done),
        Err(InboxFault::Refused(refusal)) => {
            Status::Refused(Refusal::Unheard(Unheard::Text(refusal)))
        }
        Err(InboxFault::NoMemory) => Status::NoMemory,
    }
}
