// Bodies that are read ahead, and followed with the codes of all of them made at once.
ghost use Rattle.std.specs.Prelude.{◌≡◌, ◌<◌, ◌≤◌, ◌^◌, ◌++◌, ◌∷◌, [], ℕ, length, slice_index_or, true, false, OnOk, OnErr, IfOk, IfErr};
ghost use Rattle.party_state.specs.Limits.{IsWithinLimits};
ghost use Rattle.change_code.specs.Code.{IsClosingEdc};
ghost use Rattle.key_store.specs.Store.{Lead};
ghost use Rattle.key_store.specs.Loading.{ReadTo, StopsSomewhere, StandsOnly, LeavesJournal};
ghost use Rattle.key_store.specs.Ahead.{gate_behind, IsReadAhead, StopsAmong};

use change_code::{Format, follow_as};
use edc_slices::{MOST_CODES, codes_before_ends};
use key_journal::{Cause, Opened, law_gates, law_one_list};
use party_state::State;
use std::alloc::Global;
use x_base::{NoMemory, Text};
use x_disk::Disk;

/// Behind so many bytes of frames no further one is read ahead.
const BYTES_AHEAD: u64 = 65_536;

/// Puts a body behind the others.
fn push_body(bodies: &mut Vec<Text>, body: Text) -> Result<(), Cause>
    ensures more { OnOk result (bodies.new.items ≡ bodies.old.items ++ body ∷ []) }
    ensures kept { OnErr result (bodies.new.items ≡ bodies.old.items) }
    ensures cause { IfErr result (λ reason. reason ≡ Cause.NoMemory) }
{
    match bodies.push(body) {
        Ok(()) => Ok(()),
        Err(_) => Err(Cause::NoMemory),
    }
}

/// Reads bodies ahead; false where there are no more behind them.
fn read_ahead<D: Disk>(
    alloc: Global,
    opened: &mut Opened<D>,
    bodies: &mut Vec<Text>,
) -> Result<bool, Cause>
    requires { bodies.old.items ≡ [] }
    ensures { IsReadAhead D.told opened.old opened.new bodies.new.items result }
{
    let gate = opened.gate();
    'reading: while opened.gate() - gate < BYTES_AHEAD && bodies.len() < MOST_CODES {
        let Some(body) = opened.next(alloc)? else {
            return Ok(false);
        };
        push_body(bodies, body)?;
    }
    Ok(true)
}

/// In format 2, the error detection code of each body but for its last four bytes.
fn closing_edcs(format: Format, bodies: &[Text]) -> [u32; MOST_CODES]
    requires { length bodies.now ≤ 512 }
    ensures { (i : ℕ) → i < length bodies.now → IsClosingEdc format (slice_index_or bodies.now i []) (slice_index_or result i 0) }
{
    match format {
        Format::One => [0; MOST_CODES],
        Format::Two => codes_before_ends(bodies),
    }
}

/// Makes of the party the one after all these bodies, of which the first one's gate is at this place.
fn follow_all(
    alloc: Global,
    format: Format,
    state: &mut State,
    gate: u64,
    bodies: &[Text],
) -> Result<(), Cause>
    requires few { length bodies.now ≤ 512 }
    requires fits { gate_behind gate bodies.now < 2 ^ 64 }
    ensures lead { OnOk result (Lead format state.old bodies.now state.new) }
    ensures stops { IfErr result (StopsAmong format state.old gate bodies.now) }
{
    let edcs = closing_edcs(format, bodies);
    let mut place = gate;
    for (i, body) in bodies.iter().enumerate() {
        match follow_as(alloc, format, body.bytes(), edcs[i], state) {
            Ok(true) => place += 5 + body.bytes().len() as u64,
            Ok(false) => return Err(Cause::Damaged(place)),
            Err(NoMemory) => return Err(Cause::NoMemory),
        }
    }
    Ok(())
}

/// Makes of the party the one after the next frames, which are read ahead; false where there are no more.
pub(crate) fn read_frames<D: Disk>(
    alloc: Global,
    opened: &mut Opened<D>,
    format: Format,
    state: &mut State,
) -> Result<bool, Cause>
    requires { ReadTo (D.told opened.old.disk) opened.old.gate opened.old.end format state.old }
    ensures read { IfOk result (λ more. more ≡ true → ReadTo (D.told opened.new.disk) opened.new.gate opened.new.end format state.new) }
    ensures within { IfOk result (λ more. IsWithinLimits state.old → IsWithinLimits state.new) }
    ensures further { IfOk result (λ more. more ≡ true → (opened.old.gate < opened.new.gate) × (opened.new.gate < opened.new.end)) }
    ensures all { IfOk result (λ more. more ≡ false → (opened.new.ended ≡ true)
        × StandsOnly (D.told opened.new.disk) format state.new) }
    ensures stops { IfErr result (StopsSomewhere (D.told opened.old.disk)) }
    ensures end { opened.new.end ≡ opened.old.end }
    ensures journal { LeavesJournal D.told opened.old opened.new result }
{
    law_gates();
    law_one_list();
    let gate = opened.gate();
    let Ok(mut bodies) = Vec::with_capacity(alloc, MOST_CODES) else {
        return Err(Cause::NoMemory);
    };
    let more = read_ahead(alloc, opened, &mut bodies);
    follow_all(alloc, format, state, gate, bodies.as_slice())?;
    // What stopped the reading comes behind what stops one of these bodies.
    more
}
