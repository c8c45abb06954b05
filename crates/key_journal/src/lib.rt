//! A journal of bodies on a disk, each of which is on the disk before it counts.
#![tactic(auto)]

mod area;
mod blank;
mod broken;
mod cause;
mod frame_text;
mod header;
mod judge;
mod laws;
mod layout;
mod opened;
mod put;
mod reader;
mod ready;
mod wipe;

pub use blank::{Blank, prepare};
pub use broken::Broken;
pub use cause::{Cause, Unmade};
pub use frame_text::{close_frame, frame};
pub use laws::{law_blank_sound_or_damaged, law_gates, law_one_damage, law_one_list};
pub use layout::LARGEST_BODY;
pub use opened::{Opened, open_disk};
pub use ready::{Ready, Staged};
