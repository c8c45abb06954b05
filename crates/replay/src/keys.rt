// How many key records of all parties have a status.
ghost use Rattle.std.specs.Prelude.{◌≡◌, ◌≤◌, length};
ghost use Rattle.course.specs.Tallies.{count_status, records_of};
ghost use Rattle.open_parties.specs.OpenParties.{AreOpen, members};

use course::count_in;
use open_parties::OpenParties;
use party_state::KeyStatus;
use x_disk::Disk;

/// How many records of all parties have this status.
pub(crate) fn count_keys<D: Disk>(parties: &OpenParties<D>, status: KeyStatus) -> u32
    requires all_open { AreOpen parties.now }
    requires few { length parties.now ≤ 64 }
    ensures { result ≡ count_status status (records_of (members parties.now)) }
{
    let mut count = 0;
    for place in 0..parties.len() {
        count += count_in(parties.view_at(place), status);
    }
    count
}
