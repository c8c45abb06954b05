//! What words stand for, on a command line and in a line of a scenario: names, keys and numbers.
#![tactic(auto)]

mod keys;
mod names;
mod numbers;

pub use keys::{read_key, read_one_or_two, read_pair};
pub use names::{read_count, read_ident, read_key_name, read_label};
pub use numbers::{read_decimal_number, read_plain_number, read_plain_number_within};
