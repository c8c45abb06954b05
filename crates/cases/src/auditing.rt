// What an auditor answers, as a line.
use crate::playing::{bad_line, tally_line};
use audit_check::{AuditFault, AuditInput, AuditResult, audit, read_audit};
use scenario::ScenarioFault;
use std::alloc::{AllocError, Global};
use x_base::{NoMemory, Text};

fn fault_line(alloc: Global, fault: &AuditFault) -> Result<String, AllocError> {
    let number = fault.number();
    let place = fault.place();
    format!(in alloc; "no {number} at {place}\n")
}

fn result_line(alloc: Global, answer: &AuditResult) -> Result<String, AllocError> {
    match answer {
        AuditResult::Yes(tally) => tally_line(alloc, "yes", tally),
        AuditResult::No(fault) => fault_line(alloc, fault),
        AuditResult::NoMemory => format!(in alloc; "no memory\n"),
    }
}

/// The line of what comes of an audit.
fn audited(alloc: Global, input: &AuditInput) -> Result<Text, NoMemory> {
    let answer = audit(alloc, input.scenario(), input.letters(), input.transcript());
    let mut text = Text::new(alloc);
    text.push(result_line(alloc, &answer)?.as_bytes())?;
    Ok(text)
}

/// The same of an input, or its first bad line.
pub(crate) fn audit_line(alloc: Global, bytes: &[u8]) -> Result<Text, NoMemory> {
    match read_audit(alloc, bytes) {
        Ok(input) => audited(alloc, &input),
        Err(ScenarioFault::BadLine(line)) => bad_line(alloc, line),
        Err(ScenarioFault::NoMemory) => Err(NoMemory),
    }
}
