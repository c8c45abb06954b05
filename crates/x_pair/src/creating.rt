// A party is created on two disks.
ghost use Rattle.std.specs.Prelude.{◌≢◌};
ghost use Rattle.party_state.specs.State.{begun};
ghost use Rattle.x_pair.specs.Creations.{CreatesPair, IsSafeCreation, GivesDueCreation};
ghost use Rattle.x_pair.specs.Outcomes.{LeavesBoth};

use crate::acting::create_over;
use crate::closing::{closed, failure};
use disk_pair::{fetch_two, put_back_two};
use std::alloc::Global;
use x_base::{Ident, Role};
use x_disk::Shelf;
use x_gen::Gen;
use x_party::Outcome;

/// Creates a party on its two disks, the first and then the second. Both have to be blank; otherwise nothing is written. Both are
/// put back, whatever comes.
pub fn create_pair<H: Shelf>(
    alloc: Global,
    shelf: &mut H,
    own: Ident,
    mirror: &Ident,
    role: Role,
    generator: Gen,
) -> Outcome
    requires { own ≢ mirror.now }
    ensures created { CreatesPair (begun own role generator) (H.entry shelf.old own) (H.entry shelf.old mirror.now) (H.entry shelf.new own) (H.entry shelf.new mirror.now) result }
    ensures due { GivesDueCreation (H.entry shelf.old own) (H.entry shelf.old mirror.now) result }
    ensures safe { IsSafeCreation (begun own role generator) (H.entry shelf.old own) (H.entry shelf.old mirror.now) (H.entry shelf.new own) (H.entry shelf.new mirror.now) }
    ensures shelf { LeavesBoth own mirror.now result (H.is_back shelf.new own) (H.is_back shelf.new mirror.now) (H.entry shelf.old) (H.entry shelf.new) (H.faults shelf.old) (H.faults shelf.new) }
{
    let disks = match fetch_two(shelf, &own, mirror) {
        Ok(disks) => disks,
        Err(cause) => return failure(cause),
    };
    let (disks, outcome) = create_over(alloc, disks, own, role, generator);
    closed(outcome, put_back_two(shelf, &own, mirror, disks))
}
