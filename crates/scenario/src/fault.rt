use thiserror::Error;
use x_base::NoMemory;

/// Why a text was not read.
#[derive(Clone, Copy, Debug, Error)]
pub enum ScenarioFault {
    /// This line, counted from 1, is the first outside the grammar.
    #[error("bad line {0}")]
    BadLine(u32),
    /// No memory was left.
    #[error("no memory")]
    NoMemory,
}

impl From<NoMemory> for ScenarioFault {
    ghost use Rattle.std.specs.Prelude.{◌≡◌};
    ghost use Rattle.scenario.specs.declared.fault.ScenarioFault.{ScenarioFault};

    ghost from_gives = { λ _ fault. fault ≡ ScenarioFault.NoMemory };

    fn from(_: NoMemory) -> ScenarioFault {
        ScenarioFault::NoMemory
    }
}
