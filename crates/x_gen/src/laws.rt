// What is promised of every key that is drawn.
ghost use Rattle.x_gen.specs.Laws.{DrawsOdd, DrawsStrong, OddStays};

/// A key that has been given odd parity has 64 bits, and odd parity given to it again changes
/// nothing.
#[tactic(auto, using(crate::proofs::Drawn::odd_stays))]
pub fn law_odd_stays()
    ensures { OddStays }
{}

/// The key that `draw_good` gives has 64 bits and odd parity.
pub fn law_draws_odd()
    ensures { DrawsOdd }
{}

/// The key that `draw_good` gives is neither a weak nor a semi-weak key.
pub fn law_draws_strong()
    ensures { DrawsStrong }
{}
