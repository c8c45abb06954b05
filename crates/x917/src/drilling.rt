// A drill is played over disks of its own.
ghost use Rattle.std.specs.Prelude.{◌≡◌, ◌≤◌, None, IfOk, IfErr};
ghost use Rattle.scenario_drill.specs.Drill.{drill_text};
ghost use Rattle.scenario.specs.Reading.{IsScenario};
ghost use Rattle.x917.specs.Drilled.{EndsDrill, IsDrill, IsDrilled, IsPlayedAlone};
ghost use Rattle.x917.specs.Playable.{ExpectsDrill};
ghost use Rattle.call_ends.specs.Transfer.{GivesOutput, IsQuiet};
ghost use Rattle.call_ends.specs.Causes.{IsSilent};

use crate::courses::law_courses;
use call_ends::Status;
use course::{Tally, law_counted, law_scenario_starts, summary};
use replay::{PlayResult, play};
use scenario::{Scenario, ScenarioFault, law_never_both, law_one_scenario};
use scenario_drill::{drill, law_drills_read};
use std::alloc::Global;
use x_base::{Sink, SinkFault, put_all};
use x_disk::{MemoryShelf, Shelf};

/// A sink that keeps nothing.
#[derive(Drop)]
struct NullSink;

impl Sink for NullSink {
    ghost written = { λ _. None };

    ghost faults = { λ _. 0 };

    fn put(&mut self, piece: &[u8]) -> Result<usize, SinkFault> {
        Ok(piece.len())
    }
}

/// The scenario of a drill.
fn drilled_scenario(alloc: Global, seed: u64, events: u32) -> Result<Scenario, Status>
    requires low { 1 ≤ events }
    requires high { events ≤ 10000 }
    ensures read { IfOk result (λ lines. IsScenario (drill_text seed events) lines) }
    ensures unread { IfErr result (λ s. EndsDrill ⟦<MemoryShelf as Shelf>⟧.entry seed events s) }
{
    law_drills_read();
    law_never_both();
    let Ok(text) = drill(alloc, seed, events) else {
        return Err(Status::NoMemory);
    };
    match scenario::read(alloc, text.bytes()) {
        Ok(scenario) => Ok(scenario),
        Err(ScenarioFault::BadLine(_)) => unreachable!(),
        Err(ScenarioFault::NoMemory) => Err(Status::NoMemory),
    }
}

/// Plays a scenario over a shelf of its own. Its transcript is kept nowhere.
fn play_alone(alloc: Global, scenario: &Scenario) -> PlayResult
    ensures { IsPlayedAlone ⟦<MemoryShelf as Shelf>⟧.entry scenario.now result }
{
    let mut shelf = MemoryShelf::new(alloc);
    play(alloc, scenario, &mut NullSink, &mut shelf)
}

/// Plays a drill.
fn play_drill(alloc: Global, seed: u64, events: u32) -> Result<Tally, Status>
    requires low { 1 ≤ events }
    requires high { events ≤ 10000 }
    ensures drilled { IfOk result (λ tally. IsDrilled ⟦<MemoryShelf as Shelf>⟧.entry seed events tally) }
    ensures early { IfErr result (λ s. EndsDrill ⟦<MemoryShelf as Shelf>⟧.entry seed events s) }
{
    law_courses();
    law_counted();
    let scenario = drilled_scenario(alloc, seed, events)?;
    law_scenario_starts(&scenario);
    match play_alone(alloc, &scenario) {
        PlayResult::Done(tally) => Ok(tally),
        PlayResult::Forged(number) => Err(Status::Forged(number)),
        PlayResult::NoMemory => Err(Status::NoMemory),
        _ => unreachable!(),
    }
}

/// Plays the drill that is made of a seed, over disks of its own, and writes its summary.
pub fn drill_all<K: Sink>(alloc: Global, seed: u64, events: u32, sink: &mut K) -> Status
    requires low { 1 ≤ events }
    requires high { events ≤ 10000 }
    ensures drills { IsDrill ⟦<MemoryShelf as Shelf>⟧.entry seed events result (K.written sink.old) (K.written sink.new) }
    ensures expects { IsQuiet (K.faults sink.old) (K.faults sink.new) → ExpectsDrill seed events result }
    ensures output { GivesOutput result (IsSilent result) (sink.new ≡ sink.old) (K.faults sink.old) (K.faults sink.new) }
{
    law_one_scenario();
    let tally = match play_drill(alloc, seed, events) {
        Ok(tally) => tally,
        Err(status) => return status,
    };
    let Ok(text) = summary(alloc, &tally) else {
        return Status::NoMemory;
    };
    match put_all(sink, text.bytes()) {
        Ok(()) => Status::Done,
        Err(_) => Status::WriteFault,
    }
}
