// A scenario is read and played.
ghost use Rattle.std.specs.Prelude.{◌≡◌, IfOk, IfErr, IfSome};
ghost use Rattle.x_base.specs.Edge.{Rose};
ghost use Rattle.x_line.specs.declared.order.Order.TheVariants.{Replay};
ghost use Rattle.call_ends.specs.Transfer.{GivesOutput, IsQuiet, TakesInput, TookAtMost};
ghost use Rattle.party_calls.specs.Obeys.{scenario_limit};
ghost use Rattle.x917.specs.Headline.{IsReplay, IsUnread, ReadsScenario, status_of_play};
ghost use Rattle.x917.specs.Playable.{ExpectsReplay};
ghost use Rattle.x917.specs.Expects.{IsSilentOf};

use crate::courses::law_courses;
use call_ends::{GatherError, Refusal, Status, gather};
use course::law_scenario_starts;
use replay::{PlayResult, play};
use scenario::{
    Scenario, ScenarioFault, law_bad_in_front, law_few_bytes, law_never_both, law_one_first_bad,
    law_one_scenario,
};
use std::alloc::Global;
use x_base::{Sink, Source};
use x_disk::Shelf;

/// How many bytes of a scenario are taken at most: one more than it may have.
const SCENARIO_LIMIT: usize = 16_777_217;

/// Takes the bytes of a scenario, and reads it.
fn take_scenario<S: Source>(alloc: Global, source: &mut S) -> Result<Scenario, Status>
    ensures read { IfOk result (λ lines. ReadsScenario (S.left source.old) (S.left source.new) lines) }
    ensures unread { IfErr result (λ s. IsUnread (S.left source.old) s) }
    ensures read_fault { IfErr result (λ s. s ≡ Status.ReadFault → Rose (S.faults source.old) (S.faults source.new)) }
    ensures most { TookAtMost scenario_limit (S.left source.old) (S.left source.new) }
{
    law_few_bytes();
    law_bad_in_front();
    let input = match gather(alloc, source, SCENARIO_LIMIT) {
        Ok(input) => input,
        Err(GatherError::Fault) => return Err(Status::ReadFault),
        Err(GatherError::NoMemory) => return Err(Status::NoMemory),
    };
    match scenario::read(alloc, input.bytes()) {
        Ok(scenario) => Ok(scenario),
        Err(ScenarioFault::BadLine(number)) => Err(Status::BadScenario(number)),
        Err(ScenarioFault::NoMemory) => Err(Status::NoMemory),
    }
}

/// The status of what became of a scenario.
fn status_of_play(played: PlayResult) -> Status
    ensures { result ≡ status_of_play played }
{
    match played {
        PlayResult::Done(_) => Status::Done,
        PlayResult::Refused(verdict) => Status::Refused(Refusal::Decided(verdict)),
        PlayResult::Forged(number) => Status::Forged(number),
        PlayResult::WriteFault => Status::WriteFault,
        PlayResult::DiskFault => Status::DiskFault,
        PlayResult::Damaged(place) => Status::Damaged(place),
        PlayResult::NoMemory => Status::NoMemory,
    }
}

/// Takes a scenario, plays it over the disks of its parties, which it sets up, and writes its transcript.
pub fn replay_all<S: Source, K: Sink, H: Shelf>(
    alloc: Global,
    source: &mut S,
    sink: &mut K,
    shelf: &mut H,
) -> Status
    ensures replays { IsReplay result (S.left source.old) (S.left source.new) (K.written sink.old) (K.written sink.new) (H.entry shelf.old) (H.entry shelf.new) (H.faults shelf.old) (H.faults shelf.new) }
    ensures expects { IsQuiet (S.faults source.old) (S.faults source.new) → IsQuiet (K.faults sink.old) (K.faults sink.new) → IsQuiet (H.faults shelf.old) (H.faults shelf.new)
        → IfSome (S.left source.old) (λ all. ExpectsReplay all (H.entry shelf.old) result) }
    ensures input { TakesInput scenario_limit result (S.left source.old) (S.left source.new) (S.faults source.old) (S.faults source.new) }
    ensures output { GivesOutput result (IsSilentOf Replay result) (sink.new ≡ sink.old) (K.faults sink.old) (K.faults sink.new) }
    ensures disk_fault { result ≡ Status.DiskFault → Rose (H.faults shelf.old) (H.faults shelf.new) }
{
    law_courses();
    law_never_both();
    law_one_first_bad();
    law_one_scenario();
    let scenario = match take_scenario(alloc, source) {
        Ok(scenario) => scenario,
        Err(status) => return status,
    };
    law_scenario_starts(&scenario);
    status_of_play(play(alloc, &scenario, sink, shelf))
}
