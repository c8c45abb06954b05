// A spool is begun for a party.
ghost use Rattle.spool_store.specs.Beginning.{IsBegun};
ghost use Rattle.csm_spool.specs.Beginning.{StaysInStep};

use crate::laws::law_steps;
use csm_batch::Batch;
use journal_state::law_one_finding;
use node_core::Node;
use spool_store::{Contents, Spool, Unbegun};
use std::alloc::Global;
use x_disk::Disk;

/// Begins the spool of a batch that this party is to take. The party's disk isn't called.
pub fn begin<D: Disk, E: Disk>(
    alloc: Global,
    node: &Node<D>,
    disk: E,
    batch: &Batch,
) -> Result<Spool<E>, Unbegun<E>>
    ensures begun { IsBegun E.told batch.now.0 batch.now.1 disk result }
    ensures in_step { StaysInStep D.told E.told batch.now.0 batch.now.1 node.now disk result }
{
    law_steps();
    law_one_finding::<Contents>();
    Spool::begin(alloc, disk, batch)
}
