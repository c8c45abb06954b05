// A party is shown.
ghost use Rattle.x_disk.specs.Disk.{IsUntouched};
ghost use Rattle.x_party.specs.Outcomes.{ShowsParty, LeavesShelf};
ghost use Rattle.x_party.specs.Dues.{IsDueShow, GivesDue};
ghost use Rattle.x_party.specs.Steps.{IsText};

use crate::closing::put_back;
use crate::opening::open;
use crate::outcome::Outcome;
use key_store::law_one_finding;
use party_show::show_text;
use party_state::State;
use std::alloc::Global;
use x_base::Ident;
use x_disk::Shelf;

fn text_of(alloc: Global, state: &State) -> Outcome
    ensures { IsText state.now result }
{
    match show_text(alloc, state) {
        Ok(text) => Outcome::Done { reply: Some(text) },
        Err(_) => Outcome::NoMemory,
    }
}

/// The lines in which the party is shown. Nothing is written, and the disk is put back, whatever comes.
pub fn show<H: Shelf>(alloc: Global, shelf: &mut H, name: &Ident) -> Outcome
    ensures shown { ShowsParty (H.entry shelf.old name.now) (H.entry shelf.new name.now) result }
    ensures due { GivesDue (H.entry shelf.old name.now) IsDueShow result }
    ensures untouched { IsUntouched (H.entry shelf.old name.now) (H.entry shelf.new name.now) }
    ensures shelf { LeavesShelf name.now result (H.is_back shelf.new name.now) (H.entry shelf.old) (H.entry shelf.new) (H.faults shelf.old) (H.faults shelf.new) }
{
    law_one_finding();
    let node = match open(alloc, shelf, name) {
        Ok(node) => node,
        Err(outcome) => return outcome,
    };
    let outcome = text_of(alloc, node.view());
    put_back(shelf, name, node.into_disk(), outcome)
}
