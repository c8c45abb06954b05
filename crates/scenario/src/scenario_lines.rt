ghost use Rattle.std.specs.Prelude.{◌≡◌, ◌≤◌, length, slice_get};
ghost use Rattle.std.specs.Option.{option_copied};
ghost use Rattle.scenario.specs.Behind.{EachBehind};
ghost use Rattle.scenario.specs.Rules.{may_follow};

use crate::line::Line;
use std::marker::Model;

/// The lines of a text that is a scenario, without those that are skipped.
#[derive(Drop)]
pub struct Scenario {
    lines: Vec<Line>,
}

impl Model for Scenario {
    ghost use Rattle.std.specs.Prelude.{◌≤◌, List, length};
    ghost use Rattle.scenario.specs.declared.line.Line.{Line};
    ghost use Rattle.scenario.specs.Behind.{EachBehind};
    ghost use Rattle.scenario.specs.Rules.{may_follow};

    ghost Value = { List Line };

    ghost view = { λ s. s.lines.items };

    ghost invariant = { λ s. EachBehind may_follow s.lines.items × (length s.lines.items ≤ 65536) };
}

impl Scenario {
    /// A scenario of lines that keep the rules.
    pub(crate) fn new(lines: Vec<Line>) -> Scenario
        requires rules { EachBehind may_follow lines.items }
        requires few { length lines.items ≤ 65536 }
        ensures { result ≡ lines.items }
    {
        Scenario { lines }
    }

    /// Line `i`, from 0, and `None` exactly where there is no such line.
    pub fn line(&self, i: usize) -> Option<&Line>
        ensures { option_copied result ≡ slice_get self.now i }
    {
        self.lines.get(i)
    }

    /// The lines in their order, 65,536 at most.
    pub fn lines(&self) -> &[Line]
        ensures lines { result.now ≡ self.now }
        ensures rules { EachBehind may_follow self.now }
        ensures few { length self.now ≤ 65536 }
    {
        self.lines.as_slice()
    }
}
