// A party on two disks is shown.
ghost use Rattle.std.specs.Prelude.{◌≢◌};
ghost use Rattle.x_pair.specs.Dues.{GivesDuePair, IsDueShow};
ghost use Rattle.x_pair.specs.Outcomes.{MakesPair, IsSafePair, LeavesBoth, showing};

use crate::acting::show_over;
use crate::closing::{closed, failure};
use disk_pair::{fetch_two, put_back_two};
use key_store::law_one_finding;
use mirror_store::law_recovers;
use std::alloc::Global;
use x_base::Ident;
use x_disk::Shelf;
use x_party::Outcome;

/// The lines in which the party is shown, once it is opened on its two disks, which repairs the one that lacks it. Both disks are
/// put back, whatever comes. `OtherParty` has the identities for which the two disks stand, which differ; it writes nothing, and
/// neither does `Refused`.
pub fn show_pair<H: Shelf>(alloc: Global, shelf: &mut H, name: &Ident, mirror: &Ident) -> Outcome
    requires { name.now ≢ mirror.now }
    ensures shown { MakesPair showing (H.entry shelf.old name.now) (H.entry shelf.old mirror.now) (H.entry shelf.new name.now) (H.entry shelf.new mirror.now) result }
    ensures safe { IsSafePair showing (H.entry shelf.old name.now) (H.entry shelf.old mirror.now) (H.entry shelf.new name.now) (H.entry shelf.new mirror.now) }
    ensures due { GivesDuePair (H.entry shelf.old name.now) (H.entry shelf.old mirror.now) IsDueShow result }
    ensures shelf { LeavesBoth name.now mirror.now result (H.is_back shelf.new name.now) (H.is_back shelf.new mirror.now) (H.entry shelf.old) (H.entry shelf.new) (H.faults shelf.old) (H.faults shelf.new) }
{
    law_one_finding();
    law_recovers();
    let disks = match fetch_two(shelf, name, mirror) {
        Ok(disks) => disks,
        Err(cause) => return failure(cause),
    };
    let (disks, outcome) = show_over(alloc, disks);
    closed(outcome, put_back_two(shelf, name, mirror, disks))
}
