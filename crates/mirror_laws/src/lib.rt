//! What holds of runs in which a party loses one of its two disks, that sessions over one disk or two each are such runs, and that
//! what creating parties and loading keys over two disks each leaves is a start.
#![tactic(auto)]

mod calls;
mod deeds;
mod laws;
mod losses;
mod set_up;
mod turns;

pub use calls::law_mirror_calls;
pub use deeds::law_mirror_deeds;
pub use laws::law_mirror;
pub use losses::law_losses;
pub use set_up::{law_mirror_from_nothing, law_mirror_set_up};
pub use turns::law_mirror_turns;
