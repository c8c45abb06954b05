// A party is created.
ghost use Rattle.x_disk.specs.Disk.{Tells, LeavesOnly};
ghost use Rattle.key_journal.specs.States.{WritesOnlyToBlank};
ghost use Rattle.party_state.specs.State.{begun};
ghost use Rattle.key_store.specs.Store.{IsBlankOrFirst};
ghost use Rattle.x_party.specs.Images.{StillTells, OrBefore};
ghost use Rattle.x_party.specs.Outcomes.{CreatesParty, LeavesShelf};
ghost use Rattle.x_party.specs.Dues.{IsDueCreation, GivesDue};
ghost use Rattle.x_party.specs.Steps.{HasCreated};

use crate::closing::{outcome_of, put_back};
use crate::outcome::Outcome;
use key_store::Store;
use std::alloc::Global;
use x_base::{Ident, Role};
use x_disk::{Disk, Shelf};
use x_gen::Gen;

fn create_on<D: Disk>(
    alloc: Global,
    disk: D,
    own: Ident,
    role: Role,
    generator: Gen,
) -> (D, Outcome)
    ensures { HasCreated (D.told disk) (D.told result.0) (begun own role generator) result.1 }
{
    match Store::create(alloc, disk, own, role, generator) {
        Ok(store) => (store.into_disk(), Outcome::Done { reply: None }),
        Err(unmade) => (unmade.disk, outcome_of(unmade.cause)),
    }
}

/// Creates a party on its disk, which has to be blank. The disk is put back, whatever comes.
pub fn create<H: Shelf>(
    alloc: Global,
    shelf: &mut H,
    own: Ident,
    role: Role,
    generator: Gen,
) -> Outcome
    ensures created { CreatesParty (H.entry shelf.old own) (H.entry shelf.new own) (begun own role generator) result }
    ensures due { GivesDue (H.entry shelf.old own) IsDueCreation result }
    ensures nothing_written { WritesOnlyToBlank (H.entry shelf.old own) (H.entry shelf.new own) }
    ensures any_moment { Tells (H.entry shelf.old own) → LeavesOnly (H.entry shelf.old own) (H.entry shelf.new own) (OrBefore (H.entry shelf.old own) (IsBlankOrFirst (begun own role generator))) }
    ensures tells { StillTells (H.entry shelf.old own) (H.entry shelf.new own) }
    ensures shelf { LeavesShelf own result (H.is_back shelf.new own) (H.entry shelf.old) (H.entry shelf.new) (H.faults shelf.old) (H.faults shelf.new) }
{
    let disk = match shelf.fetch(&own) {
        Ok(disk) => disk,
        Err(error) => return Outcome::from(error),
    };
    let (disk, outcome) = create_on(alloc, disk, own, role, generator);
    put_back(shelf, &own, disk, outcome)
}
