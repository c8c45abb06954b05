//! What the calls of parties are to a network (ANSI X9.17): each is an event at its party, a session of them is a run, and what
//! creating parties and loading keys at both ends leaves is a start.
#![tactic(auto)]

mod calls;
mod deeds;
mod failing;
mod set_up;
mod turns;

pub use calls::law_calls;
pub use deeds::law_deeds;
pub use failing::law_failed;
pub use set_up::{law_from_nothing, law_rules, law_set_up};
pub use turns::law_turns;
