// What stands on one disk.
use node_core::Node;
use x_disk::Disk;

/// A disk that was looked at.
#[derive(Drop)]
pub(crate) enum Found<D: Disk> {
    /// It stands for a party.
    Party(Node<D>),
    Blank(D),
    /// It isn't blank and stands for no party; the place is that of its first damage.
    Damaged(D, u64),
    /// It failed.
    Fault(D),
    /// No memory was left.
    NoMemory(D),
}
