//! The store of a party's state on a journal.
#![tactic(auto)]

mod ahead;
mod changing;
mod compact;
mod creating;
mod framed_state;
mod image_laws;
mod keep;
mod loading;
mod replacing;
mod store;
mod wiping;

pub use changing::Changing;
pub use framed_state::FramedState;
pub use image_laws::law_one_finding;
pub use store::{Kept, Store};
