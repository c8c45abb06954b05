// Opening the party of a name.
ghost use Rattle.std.specs.Prelude.{IfOk, IfErr};
ghost use Rattle.node_core.specs.Named.{IsOpenedNamed, IsNotOpenedNamed};

use crate::node::Node;
use key_journal::{Cause, Unmade};
use std::alloc::Global;
use x_base::Ident;
use x_disk::Disk;

/// Why no party of a name is opened.
#[derive(Clone, Copy)]
pub enum WhyNotOpened {
    /// The image stands for a party of this other identity.
    OtherParty(Ident),
    /// No party is opened of the image. Never with `NotEmpty`.
    Unmade(Cause),
}

/// A disk on which no party of a name was opened, and why.
#[derive(Drop)]
pub struct NotOpened<D: Disk> {
    pub disk: D,
    pub why: WhyNotOpened,
}

impl<D: Disk> Node<D> {
    /// Opens the party of the name, where the image stands for it. `OtherParty` comes only where it stands for another, with whose
    /// identity; a fault or lack of memory may come there too. Each other cause is one of `open_from`. The disk comes back.
    pub fn open_named(alloc: Global, disk: D, name: &Ident) -> Result<Node<D>, NotOpened<D>>
        ensures opened { IfOk result (IsOpenedNamed D.told name.now disk) }
        ensures failed { IfErr result (λ n. IsNotOpenedNamed D.told name.now disk n.disk n.why) }
    {
        let node = match Node::open_from(alloc, disk) {
            Ok(node) => node,
            Err(Unmade { disk, cause }) => {
                return Err(NotOpened {
                    disk,
                    why: WhyNotOpened::Unmade(cause),
                });
            }
        };
        let own = node.view().own();
        if own != *name {
            return Err(NotOpened {
                disk: node.into_disk(),
                why: WhyNotOpened::OtherParty(own),
            });
        }
        Ok(node)
    }
}
