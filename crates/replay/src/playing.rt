// A scenario is played over the disks of its parties on a shelf, and its transcript is written to a sink.
ghost use Rattle.std.specs.Prelude.{◌≡◌, ◌≤◌, ℕ, true, false, List, length, Contains, Err, IfOk};
ghost use Rattle.x_base.specs.Edge.{Rose};
ghost use Rattle.x_base.specs.declared.verdict.Verdict.{Verdict as TheVerdict};
ghost use Rattle.x_disk.specs.Shelf.{IsAlike};
ghost use Rattle.open_parties.specs.Around.{Around};
ghost use Rattle.replay.specs.Around.{FaultsCounted, SinkStays};
ghost use Rattle.open_parties.specs.Closing.{AllSlots, AreApart, OtherDisksStay};
ghost use Rattle.replay.specs.Crash.{AddsOnly, CrossesLines, IsOfLines};
ghost use Rattle.open_parties.specs.Crash.{disk_of};
ghost use Rattle.replay.specs.Finishing.{Finishes, BreaksPlay};
ghost use Rattle.replay.specs.Lines.{ForgesIn};
ghost use Rattle.replay.specs.Playing.{around, CrashLeaves, IsPlay, IsPlayOn, IsRunBy};
ghost use Rattle.open_parties.specs.OpenParties.{AreIn, AreOpen, members, owners};
ghost use Rattle.replay.specs.SettingUp.{AllTell};
ghost use Rattle.course.specs.Parties.{parties_in};
ghost use Rattle.course.specs.Starts.{start_course, start_members, start_progress};

use crate::answering::{answer_of, end_of, set_up_answer};
use crate::lines::play_lines;
use crate::play_state::PlayState;
use crate::result::PlayResult;
use crate::setting_up::set_up;
use crate::showing::write_shows;
use crate::tallying::tally_of;
use course::Tally;
use fact_book::{FactBook, Texts};
use open_parties::{Ending, Failure, OpenParties, put_back_all};
use scenario::{Line, Scenario};
use std::alloc::Global;
use x_base::Sink;
use x_disk::Shelf;

/// Plays the lines over the open disks, and writes the show lines behind them.
fn play_to_end<K: Sink, H: Shelf>(
    play_state: &mut PlayState<H::Disk>,
    sink: &mut K,
    shelf: &mut H,
    alloc: Global,
    lines: &[Line],
) -> Result<Tally, Ending>
    requires few { length lines.now ≤ 65536 }
    requires count { length play_state.old.parties ≤ 64 }
    requires all_open { AreOpen play_state.old.parties }
    requires slots { AllSlots (H.has_slot shelf.old) (owners play_state.old.parties) }
    ensures finished { IfOk result (λ tally. Finishes H.Disk.told (H.faults shelf.old) (H.faults shelf.new) lines.now play_state.old play_state.new start_progress (K.written sink.old) (K.written sink.new) tally) }
    ensures forged { (n : ℕ) → result ≡ Err (Ending.Forged n) → ForgesIn H.Disk.told (H.faults shelf.old) (H.faults shelf.new) lines.now play_state.old play_state.new start_progress (K.written sink.old) (K.written sink.new) n }
    ensures broken { (why : Ending) → result ≡ Err why → ((n : ℕ) → why ≡ Ending.Forged n → ⊥) → BreaksPlay H.Disk.told (H.entry shelf.new) (H.faults shelf.old) (H.faults shelf.new) lines.now play_state.old play_state.new start_progress (K.written sink.old) (K.written sink.new) why }
    ensures crash { CrossesLines H.Disk.told (H.entry shelf.old) (H.entry shelf.new) (H.faults shelf.old) (H.faults shelf.new) lines.now play_state.old play_state.new start_progress (K.written sink.old) }
    ensures around { Around H.Disk.told play_state.old.parties play_state.new.parties (H.entry shelf.old) (H.entry shelf.new) (H.has_slot shelf.old) (H.has_slot shelf.new) (H.faults shelf.old) (H.faults shelf.new) result }
    ensures sink { SinkStays (K.faults sink.old) (K.faults sink.new) result }
{
    let now = play_lines(play_state, sink, shelf, alloc, lines)?;
    let tally = tally_of(&play_state.parties, &now);
    write_shows(sink, alloc, &play_state.parties)?;
    Ok(tally)
}

/// The same over the disks of parties that are set up. They are put back, whatever comes.
fn play_parties<K: Sink, H: Shelf>(
    parties: OpenParties<H::Disk>,
    sink: &mut K,
    shelf: &mut H,
    alloc: Global,
    lines: &[Line],
) -> PlayResult
    requires few { length lines.now ≤ 65536 }
    requires count { length parties ≤ 64 }
    requires all_open { AreOpen parties }
    requires apart { AreApart parties }
    requires slots { AllSlots (H.has_slot shelf.old) (owners parties) }
    ensures runs { (before : ℕ) → before ≤ H.faults shelf.old → AreIn false H.Disk.told parties → members parties ≡ start_members lines.now
        → IsRunBy (around lines.now (H.entry shelf.new) before (H.faults shelf.new) (K.written sink.old) (K.written sink.new)) result }
    ensures played { (before : ℕ) → before ≤ H.faults shelf.old → AreIn true H.Disk.told parties → members parties ≡ start_members lines.now
        → IsPlayOn (around lines.now (H.entry shelf.new) before (H.faults shelf.new) (K.written sink.old) (K.written sink.new)) result }
    ensures crash { (before : ℕ) → before ≤ H.faults shelf.old → AreIn true H.Disk.told parties → members parties ≡ start_members lines.now
        → (own : List ℕ) → AddsOnly (disk_of H.Disk.told (H.entry shelf.old) parties own) (H.entry shelf.new own) (IsOfLines before (H.faults shelf.new) lines.now (start_course lines.now) own) }
    ensures refused { (v : TheVerdict) → result ≡ PlayResult.Refused v → ⊥ }
    ensures faults { FaultsCounted (K.faults sink.old) (K.faults sink.new) (H.faults shelf.old) (H.faults shelf.new) result }
    ensures others { OtherDisksStay (H.entry shelf.old) (H.entry shelf.new) parties }
{
    let mut play_state = PlayState {
        parties,
        texts: Texts::new(alloc),
        facts: FactBook::new(alloc),
    };
    let outcome = play_to_end(&mut play_state, sink, shelf, alloc, lines);
    let PlayState { parties, .. } = play_state;
    let back = put_back_all(shelf, parties);
    answer_of(end_of(outcome, back))
}

/// Plays a scenario over the disks of its parties, which it sets up first, and writes the transcript. All disks are put back,
/// whatever comes. The shelf must have none of them taken out.
pub fn play<K: Sink, H: Shelf>(
    alloc: Global,
    scenario: &Scenario,
    sink: &mut K,
    shelf: &mut H,
) -> PlayResult
    ensures runs { IsRunBy (around scenario.now (H.entry shelf.new) (H.faults shelf.old) (H.faults shelf.new) (K.written sink.old) (K.written sink.new)) result }
    ensures played { AllTell (H.entry shelf.old) (parties_in scenario.now)
        → IsPlay (H.entry shelf.old) (around scenario.now (H.entry shelf.new) (H.faults shelf.old) (H.faults shelf.new) (K.written sink.old) (K.written sink.new)) result }
    ensures crash { AllTell (H.entry shelf.old) (parties_in scenario.now)
        → CrashLeaves (H.entry shelf.old) (around scenario.now (H.entry shelf.new) (H.faults shelf.old) (H.faults shelf.new) (K.written sink.old) (K.written sink.new)) }
    ensures refused { (v : TheVerdict) → result ≡ PlayResult.Refused v → v ≡ TheVerdict.NotEmpty }
    ensures nothing { (v : TheVerdict) → result ≡ PlayResult.Refused v → sink.new ≡ sink.old }
    ensures write { result ≡ PlayResult.WriteFault → Rose (K.faults sink.old) (K.faults sink.new) }
    ensures fault { result ≡ PlayResult.DiskFault → Rose (H.faults shelf.old) (H.faults shelf.new) }
    ensures others { (own : List ℕ) → (Contains (parties_in scenario.now) own → ⊥) → IsAlike (H.entry shelf.old own) (H.entry shelf.new own) }
    ensures later { H.faults shelf.old ≤ H.faults shelf.new }
    ensures climbs { K.faults sink.old ≤ K.faults sink.new }
{
    match set_up(shelf, alloc, scenario) {
        Ok(parties) => play_parties(parties, sink, shelf, alloc, scenario.lines()),
        Err(end) => set_up_answer(end),
    }
}
