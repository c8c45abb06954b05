// What is promised of every text, whatever reads it.
ghost use Rattle.scenario.specs.Laws.{BadInFront, FewBytes, HasReading, NeverBoth, OneFirstBad, OneScenario};

/// Each text is a scenario or has a first bad line.
pub fn law_has_reading()
    ensures { HasReading }
{}

/// A text is one scenario at most.
#[tactic(auto, using(crate::proofs::Judging::one_scenario))]
pub fn law_one_scenario()
    ensures { OneScenario }
{}

/// A text has one first bad line at most.
pub fn law_one_first_bad()
    ensures { OneFirstBad }
{}

/// No text is a scenario and has a bad line.
#[tactic(auto, using(crate::proofs::Judging::never_both))]
pub fn law_never_both()
    ensures { NeverBoth }
{}

/// The text of a scenario has at most 16,777,216 bytes.
#[tactic(auto, using(crate::proofs::Sizes::few_bytes))]
pub fn law_few_bytes()
    ensures { FewBytes }
{}

/// The first bad line of the first 16,777,217 bytes of a text is that of the whole text.
#[tactic(auto, using(crate::proofs::Fronts::bad_in_front))]
pub fn law_bad_in_front()
    ensures { BadInFront }
{}
