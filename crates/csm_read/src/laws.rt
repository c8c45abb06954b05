// What is promised of every text, whatever reads it.
ghost use Rattle.csm_read.specs.Laws.{OneAnswer, FaultEnds, FaultWithin, FaultStays, UnendedStays, ReadStays, OneMeaning, ReadSays, WrittenRead, ArrivalsRead};

/// For each text either exactly one prefix is a spelling, or exactly one reason and place is a
/// fault.
#[tactic(auto, using(crate::proofs::Lawful::one_answer))]
pub fn law_one_answer()
    ensures { OneAnswer }
{}

/// Want of memory is no fault of a text, and a text that doesn't end is too long or unended by its
/// length.
#[tactic(auto, using(crate::proofs::Reasons::ends_as))]
pub fn law_fault_ends()
    ensures { FaultEnds }
{}

/// A fault has its place in the text, or at its end.
#[tactic(auto, using(crate::proofs::Within::fault_within))]
pub fn law_fault_within()
    ensures { FaultWithin }
{}

/// A fault stays when more bytes come, unless the text was only not ended.
#[tactic(auto, using(crate::proofs::Growing::fault_of_more))]
pub fn law_fault_stays()
    ensures { FaultStays }
{}

/// A text of at least four bytes that is only not ended stays so while bytes other than separators
/// and `)` come, and at most 1,024 are there.
#[tactic(auto, using(crate::proofs::Growing::unended_more))]
pub fn law_unended_stays()
    ensures { UnendedStays }
{}

/// A message stays when more bytes come.
#[tactic(auto, using(crate::proofs::Growing::read_stays))]
pub fn law_read_stays()
    ensures { ReadStays }
{}

/// An authenticated text says one message.
pub fn law_one_meaning()
    ensures { OneMeaning }
{}

/// The authenticated text of what is read says the message that is read.
#[tactic(auto, using(crate::proofs::Lawful::read_says))]
pub fn law_read_says()
    ensures { ReadSays }
{}

/// Fields that stand for a message in the writer's order, with single blanks between them, are read
/// back, whatever follows.
pub fn law_written_read()
    ensures { WrittenRead }
{}

/// What an arrival keeps is read of its text, and its authenticated text says its message.
pub fn law_arrivals_read()
    ensures { ArrivalsRead }
{}
