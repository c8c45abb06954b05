//! What is promised of every canonical text of a service message: it is read back, and says its message and no other.
#![tactic(auto)]

mod laws;

pub use laws::{law_auth_says, law_canon_reads_back, law_canon_rewrites};
