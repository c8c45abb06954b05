ghost use Rattle.std.specs.Prelude.{◌≡◌, ◌≤◌, IfOk};
ghost use Rattle.scenario_drill.specs.Drill.{drill_text};

use crate::drawing::Draws;
use crate::writing::Script;
use std::alloc::Global;
use x_base::{NoMemory, Text};

#[tactic(auto, using(crate::proofs::Drilling::none_drilled, crate::proofs::Drilling::one_drilled))]
/// The text of a scenario of that many events, made from the seed.
pub fn drill(alloc: Global, seed: u64, events: u32) -> Result<Text, NoMemory>
    requires low { 1 ≤ events }
    requires high { events ≤ 10000 }
    ensures { IfOk result (λ text. text ≡ drill_text seed events) }
{
    let mut script = Script::new(alloc);
    let mut draws = Draws::new(seed);
    script.set_up(seed)?;
    for number in 0..events {
        let (a, b, c) = draws.three();
        script.event(number, a, b, c)?;
    }
    Ok(script.finish())
}
