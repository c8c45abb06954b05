// What an audit answers.
use course::Tally;
use scenario::AuditFault;

/// The numbers of a scenario that was audited: those of a play.
pub use course::Tally as AuditTally;

/// The answer to an audit.
#[derive(Clone, Copy)]
pub enum AuditResult {
    /// The scenario has an honest run with these outcomes and this transcript.
    Yes(Tally),
    /// What is wrong first.
    No(AuditFault),
    NoMemory,
}
