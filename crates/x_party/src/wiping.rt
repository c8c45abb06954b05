// What doesn't count of a party's file is overwritten.
ghost use Rattle.x_party.specs.Outcomes.{WipesParty, IsSafeWiping, LeavesShelf};
ghost use Rattle.x_party.specs.Dues.{IsDueWiping, GivesDue};

use crate::closing::close;
use crate::laws::law_one_space;
use crate::opening::open;
use crate::outcome::Outcome;
use key_store::law_one_finding;
use std::alloc::Global;
use x_base::Ident;
use x_disk::Shelf;

/// Overwrites with zeros each byte of the party's file that doesn't count, so that nothing stands there of what the party no
/// longer has. The party stays, whatever comes, and the disk is put back.
pub fn wipe<H: Shelf>(alloc: Global, shelf: &mut H, name: &Ident) -> Outcome
    ensures wiped { WipesParty (H.entry shelf.old name.now) (H.entry shelf.new name.now) result }
    ensures safe { IsSafeWiping (H.entry shelf.old name.now) (H.entry shelf.new name.now) }
    ensures due { GivesDue (H.entry shelf.old name.now) IsDueWiping result }
    ensures shelf { LeavesShelf name.now result (H.is_back shelf.new name.now) (H.entry shelf.old) (H.entry shelf.new) (H.faults shelf.old) (H.faults shelf.new) }
{
    law_one_finding();
    law_one_space();
    match open(alloc, shelf, name) {
        Ok(node) => close(shelf, name, node.wipe()),
        Err(outcome) => outcome,
    }
}
