//! Reading cryptographic service messages.
#![tactic(auto)]

mod arriving;
mod fields;
mod laws;
mod numbers;
mod reading;
mod units;

pub use arriving::read_arrival;
pub use laws::{
    law_arrivals_read, law_fault_ends, law_fault_stays, law_fault_within, law_one_answer,
    law_one_meaning, law_read_says, law_read_stays, law_unended_stays, law_written_read,
};
pub use reading::read;
pub use units::is_plain;
