use pay_auth::PayRefusal;
use x_base::{Ident, Text};

/// What became of a payment.
#[derive(Drop)]
pub enum PayOutcome {
    /// It is paid out or taken in, and this is written, with an LF behind it.
    Done { text: Text },
    /// This is the first test that fails. The ledger's list stays, and nothing is written.
    Refused(PayRefusal),
    /// The party's image stands for a party, whose own identity is the second, and not the first, under which it was
    /// called. The ledger isn't opened, and nothing changed.
    OtherParty(Ident, Ident),
    /// No party stands on the party's disk.
    Blank,
    /// The party's image, or else the ledger's, isn't blank and stands for nothing; the place is that of its first damage.
    Damaged(u64),
    /// The shelf or a disk failed.
    Fault,
    /// No memory was left.
    NoMemory,
}
