//! What a key distribution centre decides (ANSI X9.17): it answers requests for data keys, also
//! those that come again, with keys that it draws (the order of the tests is this project's
//! profile).
#![tactic(auto)]

mod answering;
mod deciding;
mod laws;
mod leads;
mod ranged;
mod recovery;
mod requests;
mod served;

pub use answering::RecipientLinks;
pub use deciding::decide;
pub use laws::{law_answers, law_distribution_apart, law_distribution_lead, law_gives};
pub use leads::lead;
pub use ranged::law_ranged;
pub use served::{law_order, law_serves};
