// The disk is put back.
ghost use Rattle.std.specs.Prelude.{◌≡◌};
ghost use Rattle.x_disk.specs.Shelf.{shelf_view};
ghost use Rattle.node_core.specs.Turns.{turn_disk};
ghost use Rattle.x_party.specs.Steps.{IsClosed, outcome_of, outcome_of_turn};

use crate::outcome::Outcome;
use key_journal::{Cause, Unmade};
use node_core::Turn;
use x_base::{Ident, Verdict};
use x_disk::Shelf;

/// The outcome where a disk isn't opened, or no party is created on it.
pub(crate) fn outcome_of(cause: Cause) -> Outcome
    ensures { result ≡ outcome_of cause }
{
    match cause {
        Cause::Blank => Outcome::with(Verdict::Blank, None),
        Cause::NotEmpty => Outcome::with(Verdict::NotEmpty, None),
        Cause::Damaged(place) => Outcome::Damaged(place),
        Cause::Fault => Outcome::Fault,
        Cause::NoMemory => Outcome::NoMemory,
    }
}

/// Puts the disk back. An error of that comes in place of the outcome.
pub(crate) fn put_back<H: Shelf>(
    shelf: &mut H,
    name: &Ident,
    disk: H::Disk,
    outcome: Outcome,
) -> Outcome
    requires slot { H.has_slot shelf.old name.now }
    ensures { IsClosed (H.Disk.told disk) name.now (shelf_view H.entry H.has_slot H.is_back H.faults shelf.old) (shelf_view H.entry H.has_slot H.is_back H.faults shelf.new) outcome result }
{
    match shelf.put_back(name, disk) {
        Ok(()) => outcome,
        Err(error) => Outcome::from(error),
    }
}

/// Puts back the disk of a node, with the outcome of what became of it.
pub(crate) fn close<H: Shelf>(shelf: &mut H, name: &Ident, turn: Turn<H::Disk>) -> Outcome
    requires slot { H.has_slot shelf.old name.now }
    ensures { IsClosed (H.Disk.told (turn_disk turn)) name.now (shelf_view H.entry H.has_slot H.is_back H.faults shelf.old) (shelf_view H.entry H.has_slot H.is_back H.faults shelf.new) (outcome_of_turn turn) result }
{
    match turn {
        Turn::Done {
            node,
            verdict,
            reply,
            ..
        } => put_back(shelf, name, node.into_disk(), Outcome::with(verdict, reply)),
        Turn::Broken(broken) => {
            let Unmade { disk, cause } = broken.give_up();
            put_back(shelf, name, disk, outcome_of(cause))
        }
        Turn::NoMemory(node) => put_back(shelf, name, node.into_disk(), Outcome::NoMemory),
    }
}
