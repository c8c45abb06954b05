//! The check value of a pair of keys, by which two ends see that they hold the same one.
#![tactic(auto)]

mod value;

pub use value::check_value;
