// A call over a party, a payment, or a batch, ends: the text is written, and the status follows.
ghost use Rattle.std.specs.Prelude.{◌≡◌};
ghost use Rattle.call_ends.specs.Transfer.{GivesOutput};
ghost use Rattle.x_party.specs.Outcomes.{IsNoFailure};
ghost use Rattle.call_ends.specs.Causes.{IsSilent};
ghost use Rattle.x_pay.specs.Outcomes.{IsNoFailure as IsNoPayFailure};
ghost use Rattle.party_calls.specs.Ends.{Ends, IsOfParty};
ghost use Rattle.party_calls.specs.Paid.{EndsPayment};
ghost use Rattle.party_calls.specs.Spooled.{EndsBatch, EndsOutbox, status_of_missing};
ghost use Rattle.x_spool.specs.Outcomes.{IsNoFailure as IsNoBatchFailure};
ghost use Rattle.x_spool.specs.Outboxes.{IsNoFailure as IsNoOutboxFailure};

use call_ends::{Refusal, Status, put_text};
use x_base::{Sink, Verdict};
use x_party::Outcome;
use x_pay::PayOutcome;
use x_spool::{OutboxOutcome, SpoolOutcome};

/// Writes the reply of an outcome and its ending, without memory.
pub fn finish<K: Sink>(sink: &mut K, outcome: Outcome, ending: &[u8]) -> Status
    ensures ends { Ends outcome ending.now result (K.written sink.old) (K.written sink.new) }
    ensures answered { IsOfParty result → IsNoFailure outcome }
    ensures output { GivesOutput result (IsSilent result) (sink.new ≡ sink.old) (K.faults sink.old) (K.faults sink.new) }
{
    match outcome {
        Outcome::Done { reply } => put_text(sink, reply, ending, Status::Done),
        Outcome::Refused { verdict, reply } => {
            let answer = Status::Refused(Refusal::Decided(verdict));
            put_text(sink, reply, ending, answer)
        }
        Outcome::OtherParty(asked, found) => Status::Refused(Refusal::OtherParty(asked, found)),
        Outcome::Damaged(place) => Status::Damaged(place),
        Outcome::Fault => Status::DiskFault,
        Outcome::NoMemory => Status::NoMemory,
    }
}

/// Writes the text of a payment that is done and a line feed, without memory.
pub fn finish_payment<K: Sink>(sink: &mut K, outcome: PayOutcome) -> Status
    ensures ends { EndsPayment outcome result (K.written sink.old) (K.written sink.new) }
    ensures answered { IsOfParty result → IsNoPayFailure outcome }
    ensures output { GivesOutput result (IsSilent result) (sink.new ≡ sink.old) (K.faults sink.old) (K.faults sink.new) }
{
    match outcome {
        PayOutcome::Done { text } => put_text(sink, Some(text), b"\n", Status::Done),
        PayOutcome::Refused(cause) => Status::Refused(Refusal::Pay(cause)),
        PayOutcome::OtherParty(asked, found) => Status::Refused(Refusal::OtherParty(asked, found)),
        PayOutcome::Blank => Status::Refused(Refusal::Decided(Verdict::Blank)),
        PayOutcome::Damaged(place) => Status::Damaged(place),
        PayOutcome::Fault => Status::DiskFault,
        PayOutcome::NoMemory => Status::NoMemory,
    }
}

/// Writes the outbox of a batch that is done, without memory.
pub fn finish_batch<K: Sink>(sink: &mut K, outcome: SpoolOutcome) -> Status
    ensures ends { EndsBatch outcome result (K.written sink.old) (K.written sink.new) }
    ensures answered { IsOfParty result → IsNoBatchFailure outcome }
    ensures output { GivesOutput result (IsSilent result) (sink.new ≡ sink.old) (K.faults sink.old) (K.faults sink.new) }
{
    match outcome {
        SpoolOutcome::Done { text } => put_text(sink, Some(text), b"", Status::Done),
        SpoolOutcome::OtherBatch => Status::Refused(Refusal::OtherBatch),
        SpoolOutcome::OutOfStep(entry) => Status::Refused(Refusal::OutOfStep(entry)),
        SpoolOutcome::OtherParty(asked, found) => {
            Status::Refused(Refusal::OtherParty(asked, found))
        }
        SpoolOutcome::Blank => Status::Refused(Refusal::Decided(Verdict::Blank)),
        SpoolOutcome::Damaged(place) => Status::Damaged(place),
        SpoolOutcome::Fault => Status::DiskFault,
        SpoolOutcome::NoMemory => Status::NoMemory,
    }
}

/// The status of so many entries without a plan.
fn status_of(missing: u32) -> Status
    ensures { result ≡ status_of_missing missing }
{
    if missing == 0 {
        return Status::Done;
    }
    Status::Refused(Refusal::Unplanned(missing))
}

/// Writes the outbox of a spool, without memory.
pub fn finish_outbox<K: Sink>(sink: &mut K, outcome: OutboxOutcome) -> Status
    ensures ends { EndsOutbox outcome result (K.written sink.old) (K.written sink.new) }
    ensures answered { IsOfParty result → IsNoOutboxFailure outcome }
    ensures output { GivesOutput result (IsSilent result) (sink.new ≡ sink.old) (K.faults sink.old) (K.faults sink.new) }
{
    match outcome {
        OutboxOutcome::Done { text, missing } => {
            put_text(sink, Some(text), b"", status_of(missing))
        }
        OutboxOutcome::Blank => Status::Refused(Refusal::Decided(Verdict::Blank)),
        OutboxOutcome::Damaged(place) => Status::Damaged(place),
        OutboxOutcome::Fault => Status::DiskFault,
        OutboxOutcome::NoMemory => Status::NoMemory,
    }
}
