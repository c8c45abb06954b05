//! A party on a shelf that is kept on two disks: it is created on both, shown, or has a turn with a command or a message, of which it
//! can give notice, and one disk of the two makes up for the loss of the other. Both disks are fetched, and put back whatever comes.
//! What the two stand for is compared.
//!
//! The answers are the `Outcome` of x_party, of which two say less here. `Refused` and `OtherParty` leave the party as it was,
//! but the opening before them may have made the disk that lacked it; where both disks stood for the party, nothing is written.
//! `OtherParty` also comes where the two disks stand for parties of different identities, with the first disk's and the second's:
//! then neither is opened, and nothing is written.
#![tactic(auto)]

mod acting;
mod closing;
mod comparing;
mod creating;
mod found;
mod likeness;
mod opening;
mod showing;
mod turning;

pub use comparing::compare_pair;
pub use creating::create_pair;
pub use likeness::{Compared, Likeness};
pub use showing::show_pair;
pub use turning::{turn_pair, turn_pair_with_notice};
