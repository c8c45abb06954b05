// Why two disks weren't made or opened as a pair.
use disk_pair::Disks;
use key_journal::Cause;
use x_base::Ident;
use x_disk::Disk;

/// Why a pair of disks wasn't made or opened, or failed.
#[derive(Clone, Copy)]
pub enum PairCause {
    /// It is the first disk's.
    First(Cause),
    /// It is the second disk's.
    Second(Cause),
    /// The disks stand for parties of these two identities, the first disk's first.
    OtherParty(Ident, Ident),
    /// The party is too large for one frame of format 2.
    TooLarge,
}

/// Two disks that weren't made or opened as a pair, or that failed, and why.
#[derive(Drop)]
pub struct PairUnmade<D: Disk> {
    pub disks: Disks<D>,
    pub cause: PairCause,
}
