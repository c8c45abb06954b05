// What is held of each party, in the order of the parties.
use node_core::Node;
use x_base::Ident;
use x_disk::Disk;

/// What is held of a party.
#[derive(Drop)]
pub enum PartyDisk<D: Disk> {
    /// Its open disk.
    Open(Node<D>),
    /// Its disk, on which a call failed.
    Closed(D),
    /// Nothing, while it acts, or where its disk is on the shelf.
    Away,
}

/// A party, and what is held of it.
#[derive(Drop)]
pub struct OpenParty<D: Disk> {
    pub own: Ident,
    pub held: PartyDisk<D>,
}
