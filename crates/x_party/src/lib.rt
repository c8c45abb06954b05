//! A party on a shelf: it is created, shown, asked for a check value, compacted, migrated, wiped, or has a turn with a command or
//! a message, of which it can give notice. Its disk is fetched, and put back whatever comes.
#![tactic(auto)]

mod closing;
mod creating;
mod laws;
mod looking;
mod noticing;
mod opening;
mod outcome;
mod rewriting;
mod showing;
mod turning;
mod valuing;
mod wiping;
mod wording;

pub use creating::create;
pub use laws::{law_always_due, law_one_space};
pub use looking::notice_at;
pub use noticing::{TurnWithNotice, turn_with_notice};
pub use outcome::Outcome;
pub use rewriting::{compact, migrate};
pub use showing::show;
pub use turning::turn;
pub use valuing::value;
pub use wiping::wipe;
pub use wording::class_word;
