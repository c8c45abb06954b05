//! Two-key encryption, and the authentication code of FIPS 113.
#![tactic(auto)]

mod pair;
mod running;

pub use pair::{Pair, PairSchedule, ded, ede};
pub use running::{Running, code, edc, mac};
