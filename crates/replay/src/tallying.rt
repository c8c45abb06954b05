// The tally of a play at its end.
ghost use Rattle.std.specs.Prelude.{◌≤◌, length};
ghost use Rattle.course.specs.Tallies.{IsTallied};
ghost use Rattle.open_parties.specs.OpenParties.{AreOpen, members};

use crate::keys::count_keys;
use course::{Progress, Tally};
use open_parties::OpenParties;
use party_state::KeyStatus;
use x_disk::Disk;

/// The outcomes so far, and the key records of all parties as they are.
pub(crate) fn tally_of<D: Disk>(parties: &OpenParties<D>, now: &Progress) -> Tally
    requires all_open { AreOpen parties.now }
    requires few { length parties.now ≤ 64 }
    requires numbered { 1 ≤ now.now.number }
    ensures { IsTallied now.now (members parties.now) result }
{
    let counts = now.counts;
    Tally {
        events: now.number - 1,
        done: counts.done,
        refused: counts.refused,
        stopped: counts.stopped,
        none: counts.none,
        texts: counts.texts,
        live: count_keys(parties, KeyStatus::Live),
        held: count_keys(parties, KeyStatus::Held),
        closing: count_keys(parties, KeyStatus::Closing),
        ended: count_keys(parties, KeyStatus::Ended),
    }
}
