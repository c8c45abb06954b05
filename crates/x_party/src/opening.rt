// The disk is fetched, and its party opened.
ghost use Rattle.std.specs.Prelude.{◌≤◌, IfOk, IfErr, OnOk};
ghost use Rattle.x_disk.specs.Shelf.{OthersStay};
ghost use Rattle.x_party.specs.Outcomes.{LeavesShelf};
ghost use Rattle.x_party.specs.Steps.{IsOpened, IsNotOpened};

use crate::closing::{outcome_of, put_back};
use crate::outcome::Outcome;
use key_journal::Unmade;
use node_core::Node;
use std::alloc::Global;
use x_base::Ident;
use x_disk::Shelf;

/// Fetches the party's disk and opens it. Where that fails, the disk is put back.
pub(crate) fn open<H: Shelf>(
    alloc: Global,
    shelf: &mut H,
    name: &Ident,
) -> Result<Node<H::Disk>, Outcome>
    ensures node { IfOk result (λ n. IsOpened (H.entry shelf.old name.now) (H.Disk.told n.disk) n.gate n.end n.format n.party) }
    ensures slot { OnOk result (H.has_slot shelf.new name.now) }
    ensures failed { IfErr result (IsNotOpened (H.entry shelf.old name.now) (H.entry shelf.new name.now)) }
    ensures shelf { IfErr result (λ o. LeavesShelf name.now o (H.is_back shelf.new name.now) (H.entry shelf.old) (H.entry shelf.new) (H.faults shelf.old) (H.faults shelf.new)) }
    ensures others { OthersStay name.now (H.entry shelf.old) (H.entry shelf.new) }
    ensures later { H.faults shelf.old ≤ H.faults shelf.new }
{
    let disk = shelf.fetch(name)?;
    match Node::open_from(alloc, disk) {
        Ok(node) => Ok(node),
        Err(Unmade { disk, cause }) => Err(put_back(shelf, name, disk, outcome_of(cause))),
    }
}
