// The lines of a scenario so far.
ghost use Rattle.std.specs.Prelude.{◌≡◌, ◌++◌, ◌||◌, ◌∷◌, Bool, true, false, [], IfOk, OnOk};
ghost use Rattle.std.specs.Option.{option_map_or};
ghost use Rattle.scenario.specs.Kinds.{line_of};
ghost use Rattle.scenario.specs.Reading.{is_skipped, lines_in};
ghost use Rattle.scenario.specs.Rules.{may_follow};

use crate::kinds::read_line;
use crate::line::Line;
use crate::tables::Tables;
use std::alloc::Global;
use x_base::NoMemory;

/// The lines so far, and the tables of their rules.
#[derive(Drop)]
pub(crate) struct Draft {
    lines: Vec<Line>,
    tables: Tables,
}

fn is_skipped(line: &[u8]) -> bool
    ensures { result ≡ is_skipped line.now }
{
    match line {
        [] => true,
        [first, ..] => *first == b'#',
    }
}

fn push_line(lines: &mut Vec<Line>, line: Line) -> Result<(), NoMemory>
    ensures { OnOk result (lines.new.items ≡ lines.old.items ++ line ∷ []) }
{
    match lines.push(line) {
        Ok(()) => Ok(()),
        Err(_) => Err(NoMemory),
    }
}

impl Draft {
    ghost use Rattle.scenario.specs.Tables.{IsDraft, lets_follow};

    /// No lines.
    pub(crate) fn new(alloc: Global) -> Draft
        ensures empty { result.lines.items ≡ [] }
        ensures draft { IsDraft result }
    {
        Draft {
            lines: Vec::new(alloc),
            tables: Tables::new(alloc),
        }
    }

    /// Whether the line may follow those so far.
    #[tactic(auto, using(crate::proofs::Tabling::follows_alike))]
    fn may_follow(&self, line: &Line) -> bool
        requires { IsDraft self.now }
        ensures rules { result ≡ may_follow self.now.lines.items line.now }
        ensures tables { result ≡ lets_follow self.now.tables line.now }
    {
        self.tables.lets_follow(line)
    }

    /// Appends a line that may follow.
    fn append(&mut self, line: Line) -> Result<(), NoMemory>
        requires draft { IsDraft self.old }
        requires rules { true ≡ may_follow self.old.lines.items line }
        requires tables { lets_follow self.old.tables line ≡ true }
        ensures lines { OnOk result (self.new.lines.items ≡ self.old.lines.items ++ line ∷ []) }
        ensures draft { OnOk result (IsDraft self.new) }
    {
        self.tables.note(&line)?;
        push_line(&mut self.lines, line)?;
        Ok(())
    }

    /// Appends the line if it may follow, and tells whether it did.
    fn add(&mut self, line: Line) -> Result<bool, NoMemory>
        requires { IsDraft self.old }
        ensures told { IfOk result (λ good. good ≡ may_follow self.old.lines.items line) }
        ensures lines { IfOk result (λ good. good ≡ true → self.new.lines.items ≡ self.old.lines.items ++ line ∷ []) }
        ensures draft { IfOk result (λ good. good ≡ true → IsDraft self.new) }
    {
        if !self.may_follow(&line) {
            return Ok(false);
        }
        self.append(line)?;
        Ok(true)
    }

    /// Takes the next line of the text, and tells whether it is skipped or may follow.
    pub(crate) fn take(&mut self, alloc: Global, line: &[u8]) -> Result<bool, NoMemory>
        requires { IsDraft self.old }
        ensures told { IfOk result (λ good. good ≡ (is_skipped line.now || option_map_or (may_follow self.old.lines.items) (line_of line.now) false)) }
        ensures lines { IfOk result (λ good. good ≡ true → (ended : Bool) → self.new.lines.items ≡ self.old.lines.items ++ lines_in (record { line = line.now; ended = ended } ∷ [])) }
        ensures draft { IfOk result (λ good. good ≡ true → IsDraft self.new) }
    {
        if is_skipped(line) {
            return Ok(true);
        }
        match read_line(alloc, line)? {
            Some(line) => self.add(line),
            None => Ok(false),
        }
    }

    /// The lines, without their tables.
    pub(crate) fn into_lines(self) -> Vec<Line>
        ensures { result ≡ self.lines }
    {
        drop(self.tables);
        self.lines
    }
}
