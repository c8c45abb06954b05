//! The key generator of ANSI X9.17, the parity of keys, and the weak keys.
#![tactic(auto)]

mod generator;
mod laws;
mod parity;

pub use generator::{Gen, WeakDraws};
pub use laws::{law_draws_odd, law_draws_strong, law_odd_stays};
pub use parity::{is_weak, with_odd_parity};
