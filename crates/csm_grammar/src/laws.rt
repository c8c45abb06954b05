// What is promised of every message that is read, and of every arrival.
ghost use Rattle.csm_grammar.specs.Arrivals.{ReadAllows, SaidTyped, AllArrived};

/// A message is closed by a code that its form allows.
#[tactic(auto, using(crate::proofs::Allowed::read_allows))]
pub fn law_read_allows()
    ensures { ReadAllows }
{}

/// The values that a message gets from its text are of the kinds of their tags.
pub fn law_said_typed()
    ensures { SaidTyped }
{}

/// The form of an arrival allows its code, and its values are of the kinds of their tags.
pub fn law_arrived()
    ensures { AllArrived }
{}
