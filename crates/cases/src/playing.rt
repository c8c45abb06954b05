// A scenario is played, and what came of it is told in a line.
use course::Tally;
use replay::{PlayResult, play};
use scenario::{Scenario, ScenarioFault, read};
use scenario_drill::drill;
use std::alloc::{AllocError, Global};
use x_base::{MemorySink, NoMemory, Text};
use x_disk::{MemoryShelf, Shelf};

/// The most bytes that a scenario may write here.
const ROOM: usize = 16_777_216;

/// What came of a scenario, and what it wrote.
#[derive(Drop)]
pub(crate) struct Played {
    pub(crate) outcome: PlayResult,
    pub(crate) written: Text,
}

/// Plays a scenario; the calls of the sink with these numbers fail.
pub(crate) fn play_over<H: Shelf>(
    alloc: Global,
    scenario: &Scenario,
    fails: Vec<u32>,
    shelf: &mut H,
) -> Result<Played, NoMemory> {
    let mut sink = MemorySink::new(alloc, ROOM, fails)?;
    let outcome = play(alloc, scenario, &mut sink, shelf);
    let mut written = Text::new(alloc);
    written.push(sink.bytes())?;
    Ok(Played { outcome, written })
}

/// The counts of a run behind a word.
pub(crate) fn tally_line(alloc: Global, word: &str, tally: &Tally) -> Result<String, AllocError> {
    let Tally {
        events,
        done,
        refused,
        stopped,
        none,
        texts,
        live,
        held,
        closing,
        ended,
    } = *tally;
    format!(in alloc;
        "{word} {events} {done} {refused} {stopped} {none} {texts} {live} {held} {closing} {ended}\n"
    )
}

fn outcome_line(alloc: Global, outcome: &PlayResult) -> Result<String, AllocError> {
    match outcome {
        PlayResult::Done(tally) => tally_line(alloc, "done", tally),
        PlayResult::Refused(verdict) => {
            let number = verdict.number();
            format!(in alloc; "refused {number}\n")
        }
        PlayResult::Forged(event) => format!(in alloc; "forged {event}\n"),
        PlayResult::WriteFault => format!(in alloc; "write fault\n"),
        PlayResult::DiskFault => format!(in alloc; "disk fault\n"),
        PlayResult::Damaged(place) => format!(in alloc; "damaged at {place}\n"),
        PlayResult::NoMemory => format!(in alloc; "no memory\n"),
    }
}

/// The line of a bad one.
pub(crate) fn bad_line(alloc: Global, line: u32) -> Result<Text, NoMemory> {
    let mut text = Text::new(alloc);
    text.push(format!(in alloc; "bad line {line}\n")?.as_bytes())?;
    Ok(text)
}

/// What the scenario writes, and the line of what came of it.
fn told(alloc: Global, scenario: &Scenario, shelf: &mut MemoryShelf) -> Result<Text, NoMemory> {
    let Played { outcome, written } = play_over(alloc, scenario, Vec::new(alloc), shelf)?;
    let mut text = written;
    text.push(outcome_line(alloc, &outcome)?.as_bytes())?;
    Ok(text)
}

/// The same of a text, or its first bad line.
pub(crate) fn answer(
    alloc: Global,
    bytes: &[u8],
    shelf: &mut MemoryShelf,
) -> Result<Text, NoMemory> {
    match read(alloc, bytes) {
        Ok(scenario) => told(alloc, &scenario, shelf),
        Err(ScenarioFault::BadLine(line)) => bad_line(alloc, line),
        Err(ScenarioFault::NoMemory) => Err(NoMemory),
    }
}

/// The line of what came of a scenario.
fn came(alloc: Global, bytes: &[u8]) -> Result<Text, NoMemory> {
    let mut shelf = MemoryShelf::new(alloc);
    match read(alloc, bytes) {
        Ok(scenario) => {
            let Played { outcome, .. } = play_over(alloc, &scenario, Vec::new(alloc), &mut shelf)?;
            let mut text = Text::new(alloc);
            text.push(outcome_line(alloc, &outcome)?.as_bytes())?;
            Ok(text)
        }
        Err(ScenarioFault::BadLine(line)) => bad_line(alloc, line),
        Err(ScenarioFault::NoMemory) => Err(NoMemory),
    }
}

/// The line of what came of a drill of 1 to 10,000 events.
pub(crate) fn drilled(alloc: Global, seed: u64, events: u32) -> Result<Text, NoMemory> {
    if 1 <= events && events <= 10_000 {
        let text = drill(alloc, seed, events)?;
        return came(alloc, text.bytes());
    }
    Ok(Text::new(alloc))
}
