//! Scenarios are played: each party is set up on its own disk on a shelf; each event is carried out there, by the node that
//! a party's commands use, whole or stopped at a disk call; and the lines of each event are written before the next one.
//! `play` says for which network of parties the disks stand in the end, and what was written.
#![tactic(auto)]

mod acting;
mod answering;
mod keys;
mod lines;
mod making;
mod play_state;
mod playing;
mod restarting;
mod result;
mod setting_up;
mod showing;
mod tallying;
mod whole;
mod writing;

pub use playing::play;
pub use result::PlayResult;
