ghost use Rattle.std.specs.Prelude.{◌≡◌, ◌≤◌, ◌&&◌, ◌||◌, ◌++◌, ◌∷◌, [], Bool, true, false, length, nat_lt, nat_le, Err, IfErr, IfOk, OnOk};
ghost use Rattle.std.specs.Option.{option_map_or};
ghost use Rattle.scenario.specs.Kinds.{line_of};
ghost use Rattle.scenario.specs.Reading.{IsReading, IsScenario, is_skipped, lines_in};
ghost use Rattle.scenario.specs.Rules.{may_follow};
ghost use Rattle.scenario.specs.Tables.{IsDraft};

use crate::draft::Draft;
use crate::fault::ScenarioFault;
use crate::row::first_row;
use crate::scenario_lines::Scenario;
use std::alloc::Global;
use x_base::NoMemory;

/// How many lines a scenario may have.
const MOST_LINES: u32 = 65_536;

/// How many bytes a line may have, without its line feed.
const LONGEST_LINE: usize = 2_200;

/// How many bytes a scenario may have.
const MOST_BYTES: usize = 16_777_216;

fn is_within(lines: u32, len: usize, bytes: usize) -> bool
    ensures { result ≡ (nat_lt lines 65536 && (nat_le len 2200 && nat_le bytes 16777216)) }
{
    lines < MOST_LINES && len <= LONGEST_LINE && bytes <= MOST_BYTES
}

/// Takes the next line, with which so many bytes are taken, behind so many lines, and tells whether
/// it passes no limit and is skipped or may follow.
fn take(
    draft: &mut Draft,
    alloc: Global,
    line: &[u8],
    lines: u32,
    taken: usize,
) -> Result<bool, NoMemory>
    requires { IsDraft draft.old }
    ensures told { IfOk result (λ good. good ≡ ((nat_lt lines 65536 && (nat_le (length line.now) 2200 && nat_le taken 16777216))
        && (is_skipped line.now || option_map_or (may_follow draft.old.lines.items) (line_of line.now) false))) }
    ensures lines { IfOk result (λ good. good ≡ true → (ended : Bool) → draft.new.lines.items ≡ draft.old.lines.items ++ lines_in (record { line = line.now; ended = ended } ∷ [])) }
    ensures draft { IfOk result (λ good. good ≡ true → IsDraft draft.new) }
{
    if !is_within(lines, line.len(), taken) {
        return Ok(false);
    }
    draft.take(alloc, line)
}

/// Takes all of the bytes line by line, or tells the first line outside the grammar.
#[tactic(auto, using(crate::proofs::Walking::begun, crate::proofs::Walking::all_read))]
fn take_all(draft: &mut Draft, alloc: Global, bytes: &[u8]) -> Result<(), ScenarioFault>
    requires empty { draft.old.lines.items ≡ [] }
    requires draft { IsDraft draft.old }
    ensures lines { OnOk result (IsScenario bytes.now draft.new.lines.items) }
    ensures few { OnOk result (length draft.new.lines.items ≤ 65536) }
    ensures draft { OnOk result (IsDraft draft.new) }
    ensures fault { IfErr result (λ fault. IsReading bytes.now (Err fault)) }
{
    let mut lines: u32 = 0;
    let mut rest = bytes;
    while !rest.is_empty() {
        let (line, _, behind) = first_row(rest);
        let taken = bytes.len() - behind.len();
        match take(draft, alloc, line, lines, taken) {
            Ok(true) => {}
            Ok(false) => return Err(ScenarioFault::BadLine(lines + 1)),
            Err(NoMemory) => return Err(ScenarioFault::NoMemory),
        }
        lines += 1;
        rest = behind;
    }
    Ok(())
}

/// Reads the scenario that is all of the bytes, or tells the first line outside the grammar.
pub fn read(alloc: Global, bytes: &[u8]) -> Result<Scenario, ScenarioFault>
    ensures { IsReading bytes.now result }
{
    let mut draft = Draft::new(alloc);
    let taken = take_all(&mut draft, alloc, bytes);
    // The draft's tables are given up here, whatever was read.
    let lines = draft.into_lines();
    taken?;
    Ok(Scenario::new(lines))
}
