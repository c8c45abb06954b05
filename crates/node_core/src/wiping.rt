// What doesn't count of the party's file becomes zeros.
ghost use Rattle.member.specs.Acts.{wiping};
ghost use Rattle.node_core.specs.Turns.{IsTurn};

use crate::node::{Node, Turn};
use x_base::Verdict;
use x_disk::Disk;

impl<D: Disk> Node<D> {
    /// Overwrites with zeros each byte of the file that doesn't count. The party stays with its space, whatever a crash
    /// leaves.
    pub fn wipe(self) -> Turn<D>
        ensures { IsTurn D.told self wiping result }
    {
        match self.store.wipe() {
            Ok(store) => Turn::verdict_alone(store, Verdict::Accept),
            Err(broken) => Turn::Broken(broken),
        }
    }
}
