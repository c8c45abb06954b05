// A scenario is audited.
ghost use Rattle.std.specs.Prelude.{◌≡◌, ◌≤◌, IfOk};
ghost use Rattle.std.specs.List.{All};
ghost use Rattle.course.specs.Starts.{start_progress};
ghost use Rattle.audit_check.specs.Answers.{IsAnswer, IsOnly, start_audit};
ghost use Rattle.audit_check.specs.Audits.{Audit, IsLetter};
ghost use Rattle.audit_check.specs.Ends.{IsBehind, answer_of};
ghost use Rattle.audit_check.specs.States.{HoldsEach, IsAt};

use crate::comparison::Comparison;
use crate::ending::{compare_shows, tally_of};
use crate::failure::Failure;
use crate::laws::{law_one_answer, law_runs_lawful};
use crate::letters::Letters;
use crate::lines::audit_lines;
use crate::result::AuditResult;
use crate::setting_up::set_up;
use crate::state::AuditState;
use course::{Tally, law_counted, law_scenario_starts, start};
use fact_book::{FactBook, Texts};
use scenario::{AuditFault, Scenario};
use std::alloc::Global;
use x_base::NoMemory;

/// The state before the first line.
fn start_state<'a>(
    alloc: Global,
    scenario: &Scenario,
    letters: &'a [u8],
    transcript: &'a [u8],
) -> Result<AuditState<'a>, NoMemory>
    requires { All IsLetter letters.now }
    ensures at { IfOk result (λ state. IsAt transcript.now state (start_audit scenario.now letters.now)) }
    ensures now { IfOk result (λ state. state.now ≡ start_progress) }
{
    match set_up(alloc, scenario) {
        Ok(parties) => Ok(AuditState {
            parties,
            texts: Texts::new(alloc),
            facts: FactBook::new(alloc),
            letters: Letters::of(letters),
            now: start(),
            comparison: Comparison::with(transcript),
        }),
        Err(NoMemory) => Err(NoMemory),
    }
}

/// The numbers of a scenario behind its last line, or what is wrong there.
fn end_of(alloc: Global, state: &mut AuditState, transcript: &[u8]) -> Result<Tally, Failure>
    requires holds_each { HoldsEach state.old.parties }
    requires numbered { 1 ≤ state.old.now.number }
    ensures { (a : Audit) → IsAt transcript.now state.old a → IsBehind transcript.now a (answer_of result) }
{
    if !state.letters.is_empty() {
        return Err(Failure::Wrong(AuditFault::Letters(state.now.number)));
    }
    match compare_shows(&state.parties, &mut state.comparison, alloc) {
        Ok(()) => {}
        Err(_) => return Err(Failure::NoMemory),
    }
    if !state.comparison.is_same() {
        return match state.comparison.line(transcript) {
            Ok(line) => Err(Failure::Wrong(AuditFault::Differs(line))),
            Err(_) => Err(Failure::NoMemory),
        };
    }
    match tally_of(&state.parties, &state.now) {
        Ok(tally) => Ok(tally),
        Err(_) => Err(Failure::NoMemory),
    }
}

/// The numbers of a scenario, or what is wrong first.
fn tally_or_fault<'a>(
    alloc: Global,
    scenario: &Scenario,
    letters: &'a [u8],
    transcript: &'a [u8],
) -> Result<Tally, Failure>
    requires { All IsLetter letters.now }
    ensures { IsAnswer scenario.now letters.now transcript.now (answer_of result) }
{
    law_runs_lawful();
    law_counted();
    law_scenario_starts(scenario);
    let mut state = match start_state(alloc, scenario, letters, transcript) {
        Ok(state) => state,
        Err(_) => return Err(Failure::NoMemory),
    };
    match audit_lines(&mut state, alloc, scenario.lines()) {
        Ok(()) => {}
        Err(failure) => return Err(failure),
    }
    end_of(alloc, &mut state, transcript)
}

/// Whether a scenario has an honest run with these outcomes of its stopped events, `O` where the old state stands and `N`
/// where the new one does, and this transcript. Its parties are held in memory.
pub fn audit<'a>(
    alloc: Global,
    scenario: &Scenario,
    letters: &'a [u8],
    transcript: &'a [u8],
) -> AuditResult
    requires { All IsLetter letters.now }
    ensures answer { IsAnswer scenario.now letters.now transcript.now result }
    ensures only { IsOnly scenario.now letters.now transcript.now result }
{
    law_one_answer();
    match tally_or_fault(alloc, scenario, letters, transcript) {
        Ok(tally) => AuditResult::Yes(tally),
        Err(Failure::Wrong(fault)) => AuditResult::No(fault),
        Err(Failure::NoMemory) => AuditResult::NoMemory,
    }
}
