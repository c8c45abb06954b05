// A party is written whole: it is compacted or migrated.
ghost use Rattle.x_party.specs.Outcomes.{CompactsParty, MigratesParty, IsSafeCompaction, IsSafeMigration, LeavesShelf};
ghost use Rattle.x_party.specs.Dues.{IsDueCompaction, IsDueMigration, GivesDue};

use crate::closing::close;
use crate::laws::law_one_space;
use crate::opening::open;
use crate::outcome::Outcome;
use change_code::law_can_compact;
use key_store::law_one_finding;
use std::alloc::Global;
use x_base::Ident;
use x_disk::Shelf;

/// Writes the party as one frame into the other area of its journal, in its format, so that it has room again. The party
/// stays, whatever comes, and the disk is put back.
pub fn compact<H: Shelf>(alloc: Global, shelf: &mut H, name: &Ident) -> Outcome
    ensures compacted { CompactsParty (H.entry shelf.old name.now) (H.entry shelf.new name.now) result }
    ensures safe { IsSafeCompaction (H.entry shelf.old name.now) (H.entry shelf.new name.now) }
    ensures due { GivesDue (H.entry shelf.old name.now) IsDueCompaction result }
    ensures shelf { LeavesShelf name.now result (H.is_back shelf.new name.now) (H.entry shelf.old) (H.entry shelf.new) (H.faults shelf.old) (H.faults shelf.new) }
{
    law_one_finding();
    law_one_space();
    law_can_compact();
    match open(alloc, shelf, name) {
        Ok(node) => close(shelf, name, node.compact(alloc)),
        Err(outcome) => outcome,
    }
}

/// Writes a party of format 1 as one frame of format 2 into the other area of its journal; one of format 2 stays as it
/// is, and nothing is written. The party stays, whatever comes, and the disk is put back.
pub fn migrate<H: Shelf>(alloc: Global, shelf: &mut H, name: &Ident) -> Outcome
    ensures migrated { MigratesParty (H.entry shelf.old name.now) (H.entry shelf.new name.now) result }
    ensures safe { IsSafeMigration (H.entry shelf.old name.now) (H.entry shelf.new name.now) }
    ensures due { GivesDue (H.entry shelf.old name.now) IsDueMigration result }
    ensures shelf { LeavesShelf name.now result (H.is_back shelf.new name.now) (H.entry shelf.old) (H.entry shelf.new) (H.faults shelf.old) (H.faults shelf.new) }
{
    law_one_finding();
    law_one_space();
    law_can_compact();
    match open(alloc, shelf, name) {
        Ok(node) => close(shelf, name, node.migrate(alloc)),
        Err(outcome) => outcome,
    }
}
