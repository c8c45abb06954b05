// The lines are played, one after the other.
ghost use Rattle.std.specs.Prelude.{◌≡◌, ◌≤◌, ◌<◌, ◌^◌, ℕ, length, option_map, slice_get, Err, IfOk};
ghost use Rattle.replay.specs.Breaking.{BreaksIn};
ghost use Rattle.open_parties.specs.Around.{Around};
ghost use Rattle.replay.specs.Around.{SinkStays};
ghost use Rattle.open_parties.specs.Closing.{AllSlots};
ghost use Rattle.replay.specs.Crash.{CrossesLines};
ghost use Rattle.replay.specs.Lines.{Plays, ForgesIn};
ghost use Rattle.course.specs.Outcomes.{IsWithin};
ghost use Rattle.open_parties.specs.OpenParties.{AreOpen, owners};
ghost use Rattle.course.specs.Starts.{start_progress};

use crate::acting::play_act;
use crate::play_state::PlayState;
use crate::writing::write_event;
use course::{Progress, act_at, advance_quiet, start};
use open_parties::Ending;
use scenario::Line;
use std::alloc::Global;
use x_base::Sink;
use x_disk::{Disk, Shelf};

/// How many texts were written.
fn text_count<D: Disk>(play_state: &PlayState<D>) -> usize
    ensures count { result ≡ length play_state.now.texts }
    ensures small { result < 2 ^ 63 }
{
    play_state.texts.len()
}

/// The text behind so many.
fn text_behind<D: Disk>(play_state: &PlayState<D>, count: usize) -> Option<&[u8]>
    ensures { option_map (λ t. t.now) result ≡ slice_get play_state.now.texts count }
{
    play_state.texts.get(count)
}

/// The lines, from the first moment on. What is written of an event is put together in one buffer.
pub(crate) fn play_lines<K: Sink, H: Shelf>(
    play_state: &mut PlayState<H::Disk>,
    sink: &mut K,
    shelf: &mut H,
    alloc: Global,
    lines: &[Line],
) -> Result<Progress, Ending>
    requires all_open { AreOpen play_state.old.parties }
    requires slots { AllSlots (H.has_slot shelf.old) (owners play_state.old.parties) }
    requires few { length lines.now ≤ 65536 }
    ensures played { IfOk result (λ after. Plays H.Disk.told (H.faults shelf.old) (H.faults shelf.new) lines.now play_state.old play_state.new start_progress after (K.written sink.old) (K.written sink.new)) }
    ensures forged { (n : ℕ) → result ≡ Err (Ending.Forged n) → ForgesIn H.Disk.told (H.faults shelf.old) (H.faults shelf.new) lines.now play_state.old play_state.new start_progress (K.written sink.old) (K.written sink.new) n }
    ensures broken { (why : Ending) → result ≡ Err why → ((n : ℕ) → why ≡ Ending.Forged n → ⊥) → BreaksIn H.Disk.told (H.entry shelf.new) (H.faults shelf.old) (H.faults shelf.new) lines.now play_state.old play_state.new start_progress (K.written sink.old) (K.written sink.new) why }
    ensures within { IfOk result (λ after. IsWithin after (length lines.now)) }
    ensures crash { CrossesLines H.Disk.told (H.entry shelf.old) (H.entry shelf.new) (H.faults shelf.old) (H.faults shelf.new) lines.now play_state.old play_state.new start_progress (K.written sink.old) }
    ensures around { Around H.Disk.told play_state.old.parties play_state.new.parties (H.entry shelf.old) (H.entry shelf.new) (H.has_slot shelf.old) (H.has_slot shelf.new) (H.faults shelf.old) (H.faults shelf.new) result }
    ensures sink { SinkStays (K.faults sink.old) (K.faults sink.new) result }
{
    let mut buffer = Vec::new(alloc);
    let mut now = start();
    'playing: for line in lines {
        let texts = text_count(play_state);
        let outcome = {
            let Some(act) = act_at(alloc, line, &play_state.texts)? else {
                advance_quiet(line, &mut now);
                continue;
            };
            play_act(play_state, shelf, alloc, &act, &now)
        };
        let outcome = outcome?;
        let text = text_behind(play_state, texts);
        write_event(
            sink,
            &mut buffer,
            now.number,
            outcome,
            texts as u64 + 1,
            text,
        )?;
        now.advance(outcome, text.is_some());
    }
    Ok(now)
}
