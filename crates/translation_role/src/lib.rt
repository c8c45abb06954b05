//! What a key translation centre decides (ANSI X9.17): it sends a data key back to its originator,
//! encrypted for the ultimate recipient (the order of the tests is this project's profile).
#![tactic(auto)]

mod deciding;
mod laws;
mod leads;
mod ranged;
mod served;
mod service;

pub use deciding::decide;
pub use laws::{law_refused_counts, law_translates, law_translation_apart, law_translation_lead};
pub use leads::lead;
pub use ranged::law_ranged;
pub use served::{law_order, law_serves};
