// A party over two disks, and the answers of its turns.
use crate::pair::PairUnmade;
use key_store::Store;
use node_core::Node;
use std::marker::Model;
use x_base::{FullName, Text, Verdict};
use x_disk::Disk;

/// A party over two disks. Every image of either that a crash may leave stands for its state.
#[derive(Drop)]
pub struct Mirror<D: Disk> {
    pub(crate) node: Node<D>,
    pub(crate) second: Store<D>,
}

impl<D: Disk> Model for Mirror<D> {
    ghost use Rattle.mirror_store.specs.Pairs.{Twin, IsTwin};

    ghost Value = { Twin D };

    ghost view = { λ m. record { first = m.node; second = m.second } };

    ghost invariant = { λ m. IsTwin D.told (record { first = m.node; second = m.second }) };
}

/// What became of a command or a message. A reply is in an answer only where the state that it goes with is stable on both
/// disks.
#[derive(Drop)]
pub enum PairTurn<D: Disk> {
    /// Accepted: the state is the one after it. `under` names the key under which the reply's code was made.
    Done {
        mirror: Mirror<D>,
        reply: Option<Text>,
        under: Option<FullName>,
    },
    /// Refused, and nothing changed; a message may be answered. `JournalFull` where the change doesn't fit on the first disk,
    /// or the party after it is too large for one frame of format 2.
    Refused {
        mirror: Mirror<D>,
        verdict: Verdict,
        reply: Option<Text>,
        under: Option<FullName>,
    },
    /// A disk failed. The pair has to be opened again.
    Broken(PairUnmade<D>),
    /// No memory was left; nothing changed.
    NoMemory(Mirror<D>),
}
