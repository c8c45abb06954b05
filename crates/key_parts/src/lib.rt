//! Keys that come as lines of an input: from one to three components, which are joined by exclusive or.
#![tactic(auto)]

mod joining;
mod lines;
mod part;

pub use joining::entered;
pub use part::{Form, Part};
