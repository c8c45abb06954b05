// What the playing of a scenario answers.
use course::Tally;
use x_base::Verdict;

/// What became of a scenario.
#[derive(Clone, Copy)]
pub enum PlayResult {
    /// Each event was played.
    Done(Tally),
    /// The disk of a party isn't blank; `NotEmpty` always.
    Refused(Verdict),
    /// At the event of this number a code agreed that nobody made who holds its key.
    Forged(u32),
    /// The sink failed.
    WriteFault,
    /// A disk or the shelf failed.
    DiskFault,
    /// An image that stands for no party was found, and the place is that of its first damage; or, at
    /// place 0, a party that is neither of the two of which a stop leaves one. A disk that tells its
    /// bytes never leads to it.
    Damaged(u64),
    NoMemory,
}
