//! Messages from a stream of bytes that comes in pieces.
#![tactic(auto)]

mod feed;
mod hearing;
mod laws;
mod next;
mod separators;
mod unheard;

pub use feed::{Feed, HELD};
pub use hearing::{INPUT_LIMIT, hear};
pub use laws::{law_first_held, law_one_hearing, law_one_holding, law_refusal_stays};
pub use next::Next;
pub use unheard::Unheard;
