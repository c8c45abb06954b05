// The state for which a journal stands is read.
ghost use Rattle.std.specs.Prelude.{◌≡◌, ◌<◌, true, false, IfOk, IfErr};
ghost use Rattle.journal_state.specs.Loading.{ReadTo, Stops, StopsSomewhere, StandsOnly, NeverRefused, LeavesJournal, IsLoaded};

use crate::judge::Judge;
use crate::standing::Standing;
use key_journal::{Cause, Opened, Unmade, open_disk};
use std::alloc::Global;
use x_base::NoMemory;
use x_disk::Disk;

/// Makes of the state the one after the next frame; false where there is none.
#[tactic(auto, using(crate::proofs::Loaded::read_any))]
fn read_next<D: Disk, J: Judge>(
    alloc: Global,
    opened: &mut Opened<D>,
    state: &mut J,
) -> Result<bool, Cause>
    requires { ReadTo J.step J.start (D.told opened.old.disk) opened.old.gate opened.old.end state.old }
    ensures read { IfOk result (λ more. more ≡ true → ReadTo J.step J.start (D.told opened.new.disk) opened.new.gate opened.new.end state.new) }
    ensures further { IfOk result (λ more. more ≡ true → (opened.old.gate < opened.new.gate) × (opened.new.gate < opened.new.end)) }
    ensures all { IfOk result (λ more. more ≡ false → (opened.new.ended ≡ true)
        × StandsOnly J.step J.start (D.told opened.new.disk) state.new) }
    ensures stops { IfErr result (Stops J.step J.start (D.told opened.old.disk) opened.old.gate) }
    ensures never_refused { IfErr result (NeverRefused J.step J.start (D.told opened.old.disk)) }
    ensures end { opened.new.end ≡ opened.old.end }
    ensures journal { LeavesJournal D.told opened.old opened.new result }
{
    let gate = opened.gate();
    let Some(body) = opened.next(alloc)? else {
        return Ok(false);
    };
    match state.follow(alloc, body.bytes()) {
        Ok(true) => Ok(true),
        Ok(false) => Err(Cause::Damaged(gate)),
        Err(NoMemory) => Err(Cause::NoMemory),
    }
}

/// Reads all frames.
fn read_state<D: Disk, J: Judge>(alloc: Global, opened: &mut Opened<D>) -> Result<J, Cause>
    requires { ReadTo J.step J.start (D.told opened.old.disk) opened.old.gate opened.old.end J.start }
    ensures stands { IfOk result (StandsOnly J.step J.start (D.told opened.new.disk)) }
    ensures ended { IfOk result (λ state. opened.new.ended ≡ true) }
    ensures stops { IfErr result (StopsSomewhere J.step J.start (D.told opened.old.disk)) }
    ensures never_refused { IfErr result (NeverRefused J.step J.start (D.told opened.old.disk)) }
    ensures journal { LeavesJournal D.told opened.old opened.new result }
{
    let mut state = J::start(alloc);
    'reading: while read_next(alloc, opened, &mut state)? {}
    Ok(state)
}

impl<D: Disk, J: Judge> Standing<D, J> {
    /// Loads the state for which the image stands. Comes with `Blank` exactly where the image is blank, and with `Damaged`
    /// and the place exactly at its first damage.
    pub fn load(alloc: Global, disk: D) -> Result<Standing<D, J>, Unmade<D>>
        ensures { IsLoaded J.step J.start D.told disk result }
    {
        let mut opened = match open_disk(disk) {
            Ok(opened) => opened,
            Err(unmade) => return Err(unmade),
        };
        match read_state(alloc, &mut opened) {
            Ok(state) => Ok(Standing {
                ready: opened.ready(),
                state,
            }),
            Err(cause) => Err(Unmade {
                disk: opened.into_disk(),
                cause,
            }),
        }
    }
}
