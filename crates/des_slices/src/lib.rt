//! DES of 128 blocks at once, in the bits of vectors.
#![tactic(auto)]

mod boxes_1_to_4;
mod boxes_5_to_8;
mod exchanges;
mod key;
mod mask;
mod round;
mod slices;
mod vector;

pub use key::SlicedKey;
pub use slices::{LANES, Slices};
