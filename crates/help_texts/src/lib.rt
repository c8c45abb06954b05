//! What `x917 help` tells: of all commands, of one, or of a refusal.
#![tactic(auto)]

mod asking;
mod command_texts;
mod options;
mod refusal_texts;
mod telling;

pub use asking::{Topic, asked};
pub use telling::help_text;
