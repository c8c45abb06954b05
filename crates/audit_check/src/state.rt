// The state of an audit.
use crate::comparison::Comparison;
use crate::letters::Letters;
use crate::parties::Parties;
use course::Progress;
use fact_book::{FactBook, Texts};

/// The parties, the texts that were written and the facts of their codes; the letters of the stopped events that are to
/// come; where the course stands; and how far its transcript was compared.
#[derive(Drop)]
pub(crate) struct AuditState<'a> {
    pub(crate) parties: Parties,
    pub(crate) texts: Texts,
    pub(crate) facts: FactBook,
    pub(crate) letters: Letters<'a>,
    pub(crate) now: Progress,
    pub(crate) comparison: Comparison<'a>,
}
