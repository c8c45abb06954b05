//! What holds of the end of every run of several parties (ANSI X9.17).
#![tactic(auto)]

mod compactions;
mod exchanged;
mod facts;
mod hearing;
mod honest_ends;
mod inputs;
mod laws;
mod live_runs;
mod runs;

pub use compactions::law_compactions;
pub use exchanged::law_exchanged;
pub use fact_book::FactBook;
pub use facts::law_facts;
pub use hearing::law_hearing;
pub use honest_ends::law_honest_ends;
pub use inputs::law_inputs;
pub use laws::{
    law_accepted, law_agreement, law_ended, law_once, law_one_key_per_count, law_start, law_used,
};
pub use live_runs::law_live_runs_exist;
pub use runs::law_runs;
