//! What a call does: a message is checked, a party has its turn over one disk or two, pays, or takes a batch.
#![tactic(auto)]

mod comparing;
mod entering;
mod entering_mirrored;
mod finish;
mod mirrored;
mod notice;
mod obeying;
mod payments;
mod spooling;
mod tending;
mod turning;
mod turning_mirrored;

pub use mirrored::carry_out_mirrored;
pub use notice::take_with_notice;
pub use obeying::obey;
