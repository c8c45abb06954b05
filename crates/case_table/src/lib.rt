//! What is told of a table of rows: how many hold, and of one that doesn't what it gives and what was
//! wanted.
#![tactic(auto)]

mod answers;
mod call;
mod rows;
mod table;

pub use answers::{Answers, rows_told};
pub use call::Call;
pub use table::Table;
