//! The lines in which a party is shown.
#![tactic(auto)]

mod show;

pub use show::show_text;
