// That a scenario begins at a start, what its course is, and what is counted in it, told by calls that do nothing.
ghost use Rattle.std.specs.Prelude.{◌≡◌, ◌+◌, ℕ, Bool, List, length, count_by};
ghost use Rattle.scenario.specs.declared.line.Line.{Line as TheLine};
ghost use Rattle.scenario.specs.Behind.{EachBehind};
ghost use Rattle.scenario.specs.Rules.{may_follow};
ghost use Rattle.world_laws.specs.Starts.{IsStart};
ghost use Rattle.course.specs.Course.{Course, LinesLead};
ghost use Rattle.course.specs.Ends.{Ran, is_event};
ghost use Rattle.course.specs.Starts.{AreLinesInRange, HaveTheirLoads, start_course, start_world};

use crate::ranges::law_lines;
use party_state::{law_found, law_party, law_put, law_same};
use scenario::Scenario;
use x_gen::law_odd_stays;

/// The network to which lines lead is the end of the run of what happened on the way, and that run is honest.
#[tactic(auto, using(crate::proofs::Running::ran_by))]
pub fn law_played_honest()
    ensures { (tell : Bool) (before after : ℕ) (lines : List TheLine) (c e : Course) → LinesLead tell before after lines c e → Ran c e }
{}

/// From the start of a scenario on, as many texts are counted as were written; events are numbered from
/// 1, one for each line that is an event, and each stands in the list of what happened; and each event
/// is counted under one outcome.
pub fn law_counted()
    ensures texts { (tell : Bool) (before after : ℕ) (lines : List TheLine) (e : Course) → LinesLead tell before after lines (start_course lines) e → e.now.counts.texts ≡ length e.world.texts }
    ensures events { (tell : Bool) (before after : ℕ) (lines : List TheLine) (e : Course) → LinesLead tell before after lines (start_course lines) e → e.now.number ≡ 1 + count_by is_event lines }
    ensures listed { (tell : Bool) (before after : ℕ) (lines : List TheLine) (e : Course) → LinesLead tell before after lines (start_course lines) e → length e.happened ≡ count_by is_event lines }
    ensures outcomes { (tell : Bool) (before after : ℕ) (lines : List TheLine) (e : Course) → LinesLead tell before after lines (start_course lines) e → e.now.counts.done + e.now.counts.refused + e.now.counts.stopped + e.now.counts.none + 1 ≡ e.now.number }
{}

/// The network of lines that keep the rules of a scenario is a start.
pub fn law_starts()
    ensures start { (lines : List TheLine) → AreLinesInRange lines → EachBehind may_follow lines → IsStart (start_world lines) }
    ensures loads { (lines : List TheLine) → EachBehind may_follow lines → HaveTheirLoads lines }
{
    law_put();
    law_same();
    law_found();
    law_party();
    law_odd_stays();
}

/// The network of a scenario is a start.
pub fn law_scenario_starts(scenario: &Scenario)
    ensures { IsStart (start_world scenario.now) }
{
    law_starts();
    law_lines(scenario.lines());
}
