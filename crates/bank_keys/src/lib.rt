//! What a bank takes of keys (ANSI X9.17): key service messages of every form, and the answers of
//! centres, whose keys go on to their ultimate recipients.
#![tactic(auto)]

mod bodies;
mod from_distribution;
mod from_translation;
mod key_service;
mod laws;
mod passing;
mod ranged;
mod responses;
mod waits;

pub use key_service::{ksm, ksm_lead};
pub use laws::{
    law_begins, law_both_taken, law_key_lead, law_keys_apart, law_order, law_passing, law_refused,
    law_taken, law_taking,
};
pub use ranged::law_ranged;
pub use responses::{rtr, rtr_lead};
pub use waits::KeyAtCentre;
