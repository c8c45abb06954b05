//! A journal whose bodies make a state, one after the other: read, begun, continued, and begun anew as one body.
#![tactic(auto)]

mod judge;
mod keeping;
mod laws;
mod loading;
mod making;
mod standing;

pub use judge::Judge;
pub use laws::law_one_finding;
pub use standing::Standing;
