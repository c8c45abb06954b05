// What is promised of every text, whatever reads it.
ghost use Rattle.csm_batch.specs.Laws.{BadInFront, HasReading, OneReading, ReadsBack};

/// Each text is a batch or has a first bad line.
pub fn law_has_reading()
    ensures { HasReading }
{}

/// A text is one batch at most, or has one first bad line at most, and never both.
#[tactic(auto, using(crate::proofs::Judged::one_reading))]
pub fn law_one_reading()
    ensures { OneReading }
{}

/// The lines of entries are a batch of these entries.
pub fn law_reads_back()
    ensures { ReadsBack }
{}

/// The first bad line of the first 1,048,577 bytes of a text is that of the whole text.
#[tactic(auto, using(crate::proofs::Front::bad_in_front))]
pub fn law_bad_in_front()
    ensures { BadInFront }
{}
