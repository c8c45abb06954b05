// What is known of a batch and of the images of a party and a spool, by calls that do nothing.
ghost use Rattle.csm_spool.specs.Laws.{OneCourse, OnePlans, LawBegins, LawCommit, LawTake, LawSettledOnlyBehind, LawCaughtUp, LawNeverOut};

use change_code::law_one_change;
use csm_feed::law_one_hearing;
use member::{law_ranged, law_settling};

/// A party that stands here comes by the same plans to the same end, and of each length there is at most one list of plans.
pub fn law_one_course()
    ensures end { OneCourse }
    ensures plans { OnePlans }
{
    law_one_hearing();
}

/// One step of a batch. While a spool takes the plan of the next entry, and while the party, whose plan stands there, carries
/// it out, each pair of images that a crash may leave is in step.
pub fn law_steps()
    ensures begins { LawBegins }
    ensures commit { LawCommit }
    ensures take { LawTake }
{}

/// Whether the last plan was carried out can be told from the party.
pub fn law_settled_only_behind()
    ensures { LawSettledOnlyBehind }
{
    law_settling();
    law_ranged();
    law_one_change();
}

/// A party that is behind the last plan or before it: which of the two can be told, and where it is before it the party would
/// do the same again.
pub fn law_catching_up()
    ensures caught_up { LawCaughtUp }
    ensures never_out { LawNeverOut }
{
    law_settled_only_behind();
    law_one_hearing();
}
