// A party has a turn with a command or a message.
ghost use Rattle.x_party.specs.Outcomes.{TakesTurn, IsSafe, LeavesShelf};
ghost use Rattle.x_party.specs.Dues.{IsDue, GivesDue};

use crate::closing::{close, put_back};
use crate::laws::law_one_space;
use crate::opening::open;
use crate::outcome::Outcome;
use key_store::law_one_finding;
use member::law_refusal;
use party_state::Input;
use std::alloc::Global;
use x_base::Ident;
use x_disk::Shelf;

/// A party's turn with an operator's command or a message that arrived, at a moment: it decides, keeps the change, and
/// then the reply is handed out. A party whose own identity isn't the name under which its disk lies isn't asked. The disk
/// is put back, whatever comes.
pub fn turn<H: Shelf>(
    alloc: Global,
    shelf: &mut H,
    name: &Ident,
    input: &Input,
    moment: u64,
) -> Outcome
    ensures turned { TakesTurn name.now (H.entry shelf.old name.now) (H.entry shelf.new name.now) input.now moment result }
    ensures safe { IsSafe name.now (H.entry shelf.old name.now) (H.entry shelf.new name.now) input.now moment }
    ensures due { GivesDue (H.entry shelf.old name.now) (IsDue name.now input.now moment) result }
    ensures shelf { LeavesShelf name.now result (H.is_back shelf.new name.now) (H.entry shelf.old) (H.entry shelf.new) (H.faults shelf.old) (H.faults shelf.new) }
{
    law_one_finding();
    law_one_space();
    law_refusal();
    let node = match open(alloc, shelf, name) {
        Ok(node) => node,
        Err(outcome) => return outcome,
    };
    let own = node.view().own();
    if own != *name {
        return put_back(
            shelf,
            name,
            node.into_disk(),
            Outcome::OtherParty(*name, own),
        );
    }
    match node.plan(alloc, input, moment) {
        Ok(planned) => close(shelf, name, planned.carry_out()),
        Err(node) => put_back(shelf, name, node.into_disk(), Outcome::NoMemory),
    }
}
