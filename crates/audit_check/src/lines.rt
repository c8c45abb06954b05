// The lines are audited, one after the other.
ghost use Rattle.std.specs.Prelude.{◌≡◌, ◌≤◌, ◌+◌, ℕ, length, Err, OnOk};
ghost use Rattle.scenario.specs.declared.line.Line.{Line as TheLine};
ghost use Rattle.course.specs.Meanings.{IsLineAct};
ghost use Rattle.course.specs.Outcomes.{IsWithin};
ghost use Rattle.audit_check.specs.States.{HoldsEach, AreWrong, IsWrongIn, LeadAll, LeadsOn};
ghost use Rattle.scenario.specs.declared.audit_fault.AuditFault.{AuditFault as TheFault};

use crate::acting::perform;
use crate::failure::Failure;
use crate::state::AuditState;
use course::{LineAct, act_at, advance_quiet, compose_event};
use scenario::Line;
use std::alloc::Global;

/// An event. Its part of the transcript is put together in the buffer, and compared.
fn audit_event(
    state: &mut AuditState,
    buffer: &mut Vec<u8>,
    alloc: Global,
    act: &LineAct,
) -> Result<(), Failure>
    requires holds_each { HoldsEach state.old.parties }
    requires few { IsWithin state.old.now 65535 }
    ensures leads { OnOk result ((l : TheLine) → IsLineAct l state.old.texts act.now → LeadsOn l state.old state.new) }
    ensures wrong { (f : TheFault) → result ≡ Err (Failure.Wrong f) → (l : TheLine) → IsLineAct l state.old.texts act.now → IsWrongIn l state.old f }
    ensures holds_each { OnOk result (HoldsEach state.new.parties) }
    ensures within { OnOk result ((n : ℕ) → IsWithin state.old.now n → IsWithin state.new.now (n + 1)) }
{
    let count = state.texts.len();
    let outcome = perform(state, alloc, act)?;
    let text = state.texts.get(count);
    compose_event(buffer, state.now.number, outcome, count as u64 + 1, text)?;
    state.comparison.add(buffer.as_slice());
    state.now.advance(outcome, text.is_some());
    Ok(())
}

/// A line.
fn audit_line(
    state: &mut AuditState,
    buffer: &mut Vec<u8>,
    alloc: Global,
    line: &Line,
) -> Result<(), Failure>
    requires holds_each { HoldsEach state.old.parties }
    requires few { IsWithin state.old.now 65535 }
    ensures leads { OnOk result (LeadsOn line.now state.old state.new) }
    ensures wrong { (f : TheFault) → result ≡ Err (Failure.Wrong f) → IsWrongIn line.now state.old f }
    ensures holds_each { OnOk result (HoldsEach state.new.parties) }
    ensures within { OnOk result ((n : ℕ) → IsWithin state.old.now n → IsWithin state.new.now (n + 1)) }
{
    match act_at(alloc, line, &state.texts) {
        Ok(Some(act)) => audit_event(state, buffer, alloc, &act),
        Ok(None) => {
            advance_quiet(line, &mut state.now);
            Ok(())
        }
        Err(_) => Err(Failure::NoMemory),
    }
}

/// The lines.
pub(crate) fn audit_lines(
    state: &mut AuditState,
    alloc: Global,
    lines: &[Line],
) -> Result<(), Failure>
    requires holds_each { HoldsEach state.old.parties }
    requires few { length lines.now ≤ 65536 }
    requires start { IsWithin state.old.now 0 }
    ensures leads { OnOk result (LeadAll lines.now state.old state.new) }
    ensures wrong { (f : TheFault) → result ≡ Err (Failure.Wrong f) → AreWrong lines.now state.old f }
    ensures holds_each { OnOk result (HoldsEach state.new.parties) }
    ensures within { OnOk result (IsWithin state.new.now (length lines.now)) }
{
    let mut buffer = Vec::new(alloc);
    'auditing: for line in lines {
        audit_line(state, &mut buffer, alloc, line)?;
    }
    Ok(())
}
