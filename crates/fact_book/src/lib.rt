//! Facts about a network of parties: which key made the code of which text. Each is found in a `FactBook` by the name of its
//! key. Their texts stand in `Texts`, one behind the other in one list of bytes.
#![tactic(auto)]

mod book;
mod entry;
mod texts;

pub use book::FactBook;
pub use texts::Texts;
