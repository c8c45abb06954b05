//! Scenarios: texts of parties, links and events; and what an audit finds wrong with a transcript of one.
#![tactic(auto)]

mod audit_fault;
mod draft;
mod fault;
mod kind;
mod kinds;
mod laws;
mod line;
mod reading;
mod row;
mod scenario_lines;
mod tables;
mod words;

pub use audit_fault::AuditFault;
pub use fault::ScenarioFault;
pub use kinds::decoded;
pub use laws::{
    law_bad_in_front, law_few_bytes, law_has_reading, law_never_both, law_one_first_bad,
    law_one_scenario,
};
pub use line::Line;
pub use reading::read;
pub use row::first_row;
pub use scenario_lines::Scenario;
pub use words::{first_word, one};
