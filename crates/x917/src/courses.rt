// What holds of each network to which the lines of a scenario lead, told by a call that does nothing.
ghost use Rattle.std.specs.Prelude.{◌++◌, ◌∷◌, [], ℕ, Bool, List};
ghost use Rattle.scenario.specs.declared.line.Line.{Line};
ghost use Rattle.world_laws.specs.World.{member_at};
ghost use Rattle.world_laws.specs.Events.{Event, IsAction};
ghost use Rattle.world_laws.specs.Honest.{HonestAt};
ghost use Rattle.world_laws.specs.Starts.{IsStart};
ghost use Rattle.world_laws.specs.Steps.{step};
ghost use Rattle.course.specs.Course.{Course, LinesLead, events_of};
ghost use Rattle.course.specs.Lawful.{IsLawful};
ghost use Rattle.course.specs.Starts.{start_course, start_world};

use course::{law_lawful, law_played_honest};
use world_laws::law_runs;

/// What happened where lines lead from a start is an honest run, the network is its end, and the laws hold of it; and so it is
/// behind one honest event more.
pub fn law_courses()
    ensures reached { (lines front : List Line) (tell : Bool) (before after : ℕ) (c : Course) → IsStart (start_world lines) → LinesLead tell before after front (start_course lines) c → IsLawful (start_world lines) (events_of c.happened) c.world }
    ensures behind { (lines front : List Line) (tell : Bool) (before after : ℕ) (c : Course) (e : Event) → IsStart (start_world lines) → LinesLead tell before after front (start_course lines) c
        → IsAction e.action → HonestAt c.world.facts (member_at e.party c.world.members) e.action → IsLawful (start_world lines) (events_of c.happened ++ e ∷ []) (step c.now.number c.world e) }
{
    law_played_honest();
    law_lawful();
    law_runs();
}
