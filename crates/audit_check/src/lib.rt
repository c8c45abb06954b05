//! The audit of a transcript: whether a scenario has an honest run with given outcomes of its stopped events and that
//! transcript. Its parties are held in memory.
#![tactic(auto)]

mod acting;
mod auditing;
mod comparison;
mod ending;
mod failure;
mod input;
mod laws;
mod letters;
mod lines;
mod parties;
mod result;
mod setting_up;
mod state;

pub use auditing::audit;
pub use input::{AuditInput, read_audit};
pub use laws::{law_one_answer, law_one_run, law_runs_lawful};
pub use result::{AuditResult, AuditTally};
pub use scenario::AuditFault;
