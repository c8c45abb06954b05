//! Two disks of a shelf that are out at once: fetched together, and put back together.
#![tactic(auto)]

mod disks;
mod pair;

pub use disks::Disks;
pub use pair::{fetch_two, put_back_two};
