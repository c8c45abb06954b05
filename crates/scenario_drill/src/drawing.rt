// The numbers that a drill draws.
ghost use Rattle.std.specs.Prelude.{◌≡◌, ◌<◌, ◌/◌, ◌^◌};
ghost use Rattle.scenario_drill.specs.Drill.{advanced};

/// The numbers behind a seed.
#[derive(Drop)]
pub(crate) struct Draws {
    number: u64,
}

impl Draws {
    /// From the seed on.
    pub(crate) fn new(seed: u64) -> Draws
        ensures { result.number ≡ seed }
    {
        Draws { number: seed }
    }

    /// Goes to the next number and gives its upper 31 bits.
    fn draw(&mut self) -> u64
        ensures number { self.new.number ≡ advanced self.old.number }
        ensures upper { result ≡ advanced self.old.number / 2 ^ 33 }
        ensures small { result < 2 ^ 31 }
    {
        self.number = self
            .number
            .wrapping_mul(6364136223846793005)
            .wrapping_add(1442695040888963407);
        self.number >> 33
    }

    /// The next three draws.
    pub(crate) fn three(&mut self) -> (u64, u64, u64)
        ensures number { self.new.number ≡ advanced (advanced (advanced self.old.number)) }
        ensures first { result.0 ≡ advanced self.old.number / 2 ^ 33 }
        ensures second { result.1 ≡ advanced (advanced self.old.number) / 2 ^ 33 }
        ensures third { result.2 ≡ advanced (advanced (advanced self.old.number)) / 2 ^ 33 }
        ensures small { result.1 < 2 ^ 31 }
    {
        let first = self.draw();
        let second = self.draw();
        let third = self.draw();
        (first, second, third)
    }
}
