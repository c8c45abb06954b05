// What is read of a scenario, as a line.
use scenario::{Scenario, ScenarioFault, read};
use scenario_drill::drill;
use std::alloc::Global;
use x_base::{NoMemory, Text};

/// How many lines the scenario has.
fn count_of(scenario: &Scenario) -> u64 {
    let lines = scenario.lines().len();
    (0..lines).filter(|i| scenario.line(*i).is_some()).count() as u64
}

/// How many lines the scenario has, or which line is bad.
pub(crate) fn read_line(alloc: Global, bytes: &[u8]) -> Result<Text, NoMemory> {
    let (word, count) = match read(alloc, bytes) {
        Ok(scenario) => (b"lines ".as_slice(), count_of(&scenario)),
        Err(ScenarioFault::BadLine(line)) => (b"bad line ".as_slice(), line as u64),
        Err(ScenarioFault::NoMemory) => return Err(NoMemory),
    };
    let mut text = Text::new(alloc);
    text.push(word)?;
    text.push(count.to_string(alloc)?.as_bytes())?;
    text.push(b"\n")?;
    Ok(text)
}

/// The text of a drill of 1 to 10,000 events.
pub(crate) fn drill_text(alloc: Global, seed: u64, events: u32) -> Result<Text, NoMemory> {
    if 1 <= events && events <= 10_000 {
        drill(alloc, seed, events)
    } else {
        Ok(Text::new(alloc))
    }
}
