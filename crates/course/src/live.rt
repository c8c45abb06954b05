// A scenario at the end of whose course a key is live, told by a call that does nothing.
ghost use Rattle.scenario.specs.Reading.{IsScenario};
ghost use Rattle.world_laws.specs.Starts.{IsStart};
ghost use Rattle.course.specs.Live.{LeadsToLiveKey, live_lines, live_text};
ghost use Rattle.course.specs.Starts.{start_world};

use crate::laws::law_starts;
use world_laws::{law_exchanged, law_hearing};

/// There is a text that is a scenario, of which the network begins at a start, and whose lines lead to one course alone: an honest
/// run, at the end of which a key is live at its originator, and held by its partner with the same value.
pub fn law_live_key()
    ensures text { IsScenario live_text live_lines }
    ensures start { IsStart (start_world live_lines) }
    ensures live { LeadsToLiveKey live_lines }
{
    law_starts();
    law_hearing();
    law_exchanged();
}
