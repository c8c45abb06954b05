// A transcript is audited.
ghost use Rattle.std.specs.Prelude.{◌≡◌, ◌≢◌, ◌⊎◌, Err, IfSome, Result};
ghost use Rattle.course.specs.declared.tally.Tally.{Tally};
ghost use Rattle.call_ends.specs.Transfer.{GivesOutput, IsQuiet, TakesInput};
ghost use Rattle.call_ends.specs.Causes.{IsSilent};
ghost use Rattle.call_ends.specs.declared.status.Status.{Status as TheStatus};
ghost use Rattle.party_calls.specs.Obeys.{audit_limit};
ghost use Rattle.x917.specs.Audited.{ExpectsAudit, IsAudit, IsFound, audit_taken, found_of, status_of_fault};

use audit_check::{AuditFault, AuditResult, AuditTally, audit, read_audit};
use call_ends::{GatherError, Refusal, Status, gather};
use course::summary;
use scenario::ScenarioFault;
use std::alloc::Global;
use x_base::{Sink, Source, put_all};

/// How many bytes of an auditor's input are taken at most: one more than it may have.
const AUDIT_LIMIT: usize = 67_108_865;

/// The status of what is wrong.
fn status_of_fault(fault: AuditFault) -> Status
    ensures { result ≡ status_of_fault fault }
{
    match fault {
        AuditFault::Forged(event) => Status::Forged(event),
        _ => Status::Refused(Refusal::Audit(fault)),
    }
}

/// The numbers of the run, or the status that says why it isn't confirmed.
fn found_of(answer: AuditResult) -> Result<AuditTally, Status>
    ensures { result ≡ found_of answer }
{
    match answer {
        AuditResult::Yes(tally) => Ok(tally),
        AuditResult::No(fault) => Err(status_of_fault(fault)),
        AuditResult::NoMemory => Err(Status::NoMemory),
    }
}

/// What is found of the bytes of an input.
fn find(alloc: Global, bytes: &[u8]) -> Result<AuditTally, Status>
    ensures found { IsFound bytes.now result }
    ensures only { (other : Result Tally TheStatus) → IsFound bytes.now other → other ≢ Err Status.NoMemory → (result ≡ other) ⊎ (result ≡ Err Status.NoMemory) }
{
    match read_audit(alloc, bytes) {
        Ok(input) => found_of(audit(alloc, input.scenario(), input.letters(), input.transcript())),
        Err(ScenarioFault::BadLine(number)) => Err(Status::BadScenario(number)),
        Err(ScenarioFault::NoMemory) => Err(Status::NoMemory),
    }
}

/// Takes an auditor's input, and writes the summary of the run where its transcript is that of the scenario.
pub fn audit_all<S: Source, K: Sink>(alloc: Global, source: &mut S, sink: &mut K) -> Status
    ensures audits { IsAudit result (S.left source.old) (S.left source.new) (K.written sink.old) (K.written sink.new) }
    ensures expects { IsQuiet (S.faults source.old) (S.faults source.new) → IsQuiet (K.faults sink.old) (K.faults sink.new) → IfSome (S.left source.old) (λ all. ExpectsAudit (audit_taken all) result) }
    ensures input { TakesInput audit_limit result (S.left source.old) (S.left source.new) (S.faults source.old) (S.faults source.new) }
    ensures output { GivesOutput result (IsSilent result) (sink.new ≡ sink.old) (K.faults sink.old) (K.faults sink.new) }
{
    let input = match gather(alloc, source, AUDIT_LIMIT) {
        Ok(input) => input,
        Err(GatherError::Fault) => return Status::ReadFault,
        Err(GatherError::NoMemory) => return Status::NoMemory,
    };
    let tally = match find(alloc, input.bytes()) {
        Ok(tally) => tally,
        Err(status) => return status,
    };
    let Ok(text) = summary(alloc, &tally) else {
        return Status::NoMemory;
    };
    match put_all(sink, text.bytes()) {
        Ok(()) => Status::Done,
        Err(_) => Status::WriteFault,
    }
}
