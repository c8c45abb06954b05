// What became of a batch.
use key_journal::Broken;
use node_core::Node;
use spool_store::Spool;
use x_disk::Disk;

/// What became of a batch.
#[derive(Drop)]
pub enum Driven<D: Disk, E: Disk> {
    /// Each entry has its plan, and the party is behind the last.
    Done {
        node: Node<D>,
        spool: Spool<E>,
    },
    /// The last plan, that of this entry, isn't carried out, and the party would do otherwise with the entry. Nothing
    /// changed.
    OutOfStep {
        node: Node<D>,
        spool: Spool<E>,
        entry: u32,
    },
    /// The party's disk failed.
    NodeBroken {
        broken: Broken<D>,
        spool: Spool<E>,
    },
    /// The spool's disk failed.
    SpoolBroken {
        node: Node<D>,
        broken: Broken<E>,
    },
    /// No memory was left. What was done stays.
    NoMemory {
        node: Node<D>,
        spool: Spool<E>,
    },
}
