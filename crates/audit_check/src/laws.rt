// What holds of each audit, told by calls that do nothing.
ghost use Rattle.audit_check.specs.Laws.{OneAnswer, OneCourse, OneRun, RunsLawful};

use course::{law_lawful, law_played_honest};
use csm_feed::law_one_hearing;
use world_laws::law_hearing;

/// One answer at most may come, but for want of memory.
#[tactic(auto, using(crate::proofs::Answering::one_answer))]
pub fn law_one_answer()
    ensures { OneAnswer }
{
    law_hearing();
    law_one_hearing();
}

/// The runs of a scenario are its courses, with the letters of their stopped events; and so it is from any audit on.
pub fn law_one_run()
    ensures runs { OneRun }
    ensures leads { OneCourse }
{}

/// Each run of a scenario is lawful.
#[tactic(auto, using(crate::proofs::Running::runs_lawful))]
pub fn law_runs_lawful()
    ensures { RunsLawful }
{
    law_played_honest();
    law_lawful();
}
