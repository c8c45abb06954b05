// The state of a play: the open parties, the texts that were written, and the facts.
use fact_book::{FactBook, Texts};
use open_parties::OpenParties;
use x_disk::Disk;

/// The open parties, the texts that were written, and the facts.
#[derive(Drop)]
pub(crate) struct PlayState<D: Disk> {
    pub(crate) parties: OpenParties<D>,
    pub(crate) texts: Texts,
    pub(crate) facts: FactBook,
}
