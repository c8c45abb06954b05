//! What a call takes from its source, and how it ends: the status, its line and its exit code. A message that is heard, a key
//! that is taken, a message that is checked.
#![tactic(auto)]

mod checking;
mod listening;
mod party_command;
mod putting;
mod status;
mod taking;
mod transfer;

pub use checking::check;
pub use listening::listen;
pub use party_command::{PartyCommand, command_of};
pub use putting::put_text;
pub use status::{Refusal, Status, exit_code, status_line};
pub use taking::{Entered, take_key};
pub use transfer::{GatherError, gather};
