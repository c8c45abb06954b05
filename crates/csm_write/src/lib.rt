//! The canonical text of a cryptographic service message.
#![tactic(auto)]

mod classes;
mod closing;
mod digits;
mod field_text;
mod optional;
mod shortness;
mod writer;
mod writing;

pub use closing::Closing;
pub use digits::code_digits;
pub use shortness::law_canon_short;
pub use writing::write;
