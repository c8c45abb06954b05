//! What a party decides, by its role, what is known of a bank's decisions (ANSI X9.17), and what a party with the space that is
//! left for it will do with an input.
#![tactic(auto)]

mod answer;
mod bank_laws;
mod deciding;
mod holder;
mod in_memory;
mod laws;
mod leads;
mod plan;
mod refusing;

pub use answer::Answer;
pub use bank_laws::{
    law_bank_apart, law_bank_lead, law_bank_passing, law_bank_ranged, law_bank_taking,
};
pub use deciding::decide;
pub use holder::Holder;
pub use in_memory::{PartyInMemory, PlannedInMemory};
pub use laws::{
    law_differing, law_passing, law_ranged, law_role_lead, law_serves, law_settling, law_taking,
};
pub use leads::lead;
pub use plan::Plan;
pub use refusing::law_refusal;
