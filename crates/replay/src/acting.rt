// An event: it is tested, and carried out whole, or stopped where a stop waits.
ghost use Rattle.std.specs.Prelude.{◌≡◌, ◌⊎◌, ◌<◌, ◌++◌, ℕ, [], cond, length, Some, None, Err, IfOk, IfErr};
ghost use Rattle.x_base.specs.Edge.{Rose};
ghost use Rattle.member.specs.Member.{plan_at};
ghost use Rattle.node_core.specs.Turns.{member_of};
ghost use Rattle.world_laws.specs.Noted.{noted};
ghost use Rattle.course.specs.Stops.{KeepsChange, member_next};
ghost use Rattle.replay.specs.Acting.{PlaysAt, ForgesAt, Acts, Forges};
ghost use Rattle.open_parties.specs.Around.{Around, ShelfStays};
ghost use Rattle.replay.specs.Breaks.{BreaksAct, BreaksHonest};
ghost use Rattle.open_parties.specs.Closing.{AllSlots, AnyFaulty};
ghost use Rattle.replay.specs.Crash.{Crosses};
ghost use Rattle.open_parties.specs.Crash.{HoldsAgain};
ghost use Rattle.replay.specs.Events.{IsStopLeft, IsStoppedIn};
ghost use Rattle.open_parties.specs.OpenParties.{AreOpen, IsEmptyAt, IsPlace, owners};

use crate::play_state::PlayState;
use crate::restarting::reopen;
use crate::whole::play_whole;
use course::{EventOutcome, LineAct, Progress, Stop, is_honest, note_if, outcome_of};
use node_core::Node;
use open_parties::{Ending, Expected, Failure, PartyDisk, carry_out_to_call};
use party_state::Input;
use std::alloc::Global;
use world_laws::law_inputs;
use x_base::{Ident, NoMemory, Text};
use x_disk::Shelf;

/// A copy of what will be written, for an event that is stopped hands nothing out.
fn copied(alloc: Global, reply: &Option<Text>) -> Result<Option<Text>, NoMemory>
    ensures { IfOk result (λ copy. copy ≡ reply.now) }
{
    match reply {
        Some(text) => Ok(Some(text.copy(alloc)?)),
        None => Ok(None),
    }
}

/// An input of the party that was taken out is stopped at a disk call. Where the party after it stands, its fact is noted.
fn play_stopped<H: Shelf>(
    play_state: &mut PlayState<H::Disk>,
    place: usize,
    own: &Ident,
    shelf: &mut H,
    alloc: Global,
    node: Node<H::Disk>,
    input: &Input,
    moment: u64,
    stop: Stop,
) -> Result<bool, Failure>
    requires empty { IsEmptyAt play_state.old.parties place }
    requires slot { H.has_slot shelf.old own.now }
    ensures stopped { IfOk result (λ next. IsStoppedIn H.Disk.told play_state.old.parties play_state.new.parties place node (Some input.now) moment stop (H.faults shelf.old) (H.faults shelf.new) next) }
    ensures noted { IfOk result (λ next. play_state.new.facts ≡ play_state.old.facts ++ cond next (noted (plan_at (member_of node) input.now moment).under (plan_at (member_of node) input.now moment).reply) []) }
    ensures texts { play_state.new.texts ≡ play_state.old.texts }
    ensures left { IfErr result (λ why. IsStopLeft H.Disk.told (H.entry shelf.new own.now) play_state.old.parties play_state.new.parties place node (Some input.now) moment why) }
    ensures fault { result ≡ Err Failure.Fault → Rose (H.faults shelf.old) (H.faults shelf.new) ⊎ AnyFaulty H.Disk.told play_state.new.parties }
    ensures crash { HoldsAgain H.Disk.told (H.entry shelf.new own.now) node (member_of node) (member_next (member_of node) (Some input.now) moment) (KeepsChange (member_of node) (Some input.now) moment) play_state.old.parties play_state.new.parties place }
    ensures shelf { ShelfStays own.now (H.entry shelf.old) (H.entry shelf.new) (H.has_slot shelf.old) (H.has_slot shelf.new) (H.faults shelf.old) (H.faults shelf.new) }
{
    let Ok(expected) = Expected::of_input(alloc, &node, input, moment) else {
        play_state.parties.put_in(place, PartyDisk::Open(node));
        return Err(Failure::NoMemory);
    };
    let planned = match node.plan(alloc, input, moment) {
        Ok(planned) => planned,
        Err(node) => {
            play_state.parties.put_in(place, PartyDisk::Open(node));
            return Err(Failure::NoMemory);
        }
    };
    let answer = planned.plan();
    let under = answer.under;
    let Ok(reply) = copied(alloc, &answer.reply) else {
        play_state
            .parties
            .put_in(place, PartyDisk::Open(planned.cancel()));
        return Err(Failure::NoMemory);
    };
    let begun = carry_out_to_call(planned, stop.n);
    let next = reopen(
        &mut play_state.parties,
        place,
        own,
        shelf,
        alloc,
        begun,
        &expected,
        stop,
    )?;
    note_if(&mut play_state.facts, next, under, &reply)?;
    Ok(next)
}

/// The party at a place has an input.
fn play_input<H: Shelf>(
    play_state: &mut PlayState<H::Disk>,
    place: usize,
    own: &Ident,
    shelf: &mut H,
    alloc: Global,
    input: &Input,
    now: &Progress,
) -> Result<EventOutcome, Ending>
    requires within { place < length play_state.old.parties }
    requires placed { IsPlace play_state.old.parties own.now place }
    requires all_open { AreOpen play_state.old.parties }
    requires slots { AllSlots (H.has_slot shelf.old) (owners play_state.old.parties) }
    ensures played { IfOk result (λ outcome. PlaysAt H.Disk.told (H.faults shelf.old) (H.faults shelf.new) play_state.old play_state.new place (Some input.now) 0 now.now outcome) }
    ensures forged { (n : ℕ) → result ≡ Err (Ending.Forged n) → (n ≡ now.now.number) × (play_state.new ≡ play_state.old) × ForgesAt H.Disk.told play_state.old place input.now }
    ensures broken { (why : Failure) → result ≡ Err (Ending.Failed why) → BreaksAct H.Disk.told (H.entry shelf.new) (LineAct.Give own.now input.now) play_state.old play_state.new now.now why }
    ensures crash { Crosses H.Disk.told (H.entry shelf.old) (H.entry shelf.new) (LineAct.Give own.now input.now) play_state.old play_state.new now.now }
    ensures write { result ≡ Err Ending.Write → ⊥ }
    ensures around { Around H.Disk.told play_state.old.parties play_state.new.parties (H.entry shelf.old) (H.entry shelf.new) (H.has_slot shelf.old) (H.has_slot shelf.new) (H.faults shelf.old) (H.faults shelf.new) result }
{
    law_inputs();
    let node = play_state.parties.take_out(place);
    let planned = match node.plan(alloc, input, now.moment) {
        Ok(planned) => planned,
        Err(node) => {
            play_state.parties.put_in(place, PartyDisk::Open(node));
            return Err(Ending::Failed(Failure::NoMemory));
        }
    };
    if !is_honest(&play_state.facts, input, &planned.plan().lead) {
        play_state
            .parties
            .put_in(place, PartyDisk::Open(planned.cancel()));
        return Err(Ending::Forged(now.number));
    }
    match now.stop {
        Some(stop) => {
            let node = planned.cancel();
            play_stopped(
                play_state, place, own, shelf, alloc, node, input, now.moment, stop,
            )?;
            Ok(EventOutcome::Stopped)
        }
        None => {
            let verdict = play_whole(play_state, place, planned)?;
            Ok(outcome_of(verdict))
        }
    }
}

/// Bytes arrive at the party at a place of which nothing is heard.
fn play_unheard<H: Shelf>(
    play_state: &mut PlayState<H::Disk>,
    place: usize,
    own: &Ident,
    shelf: &mut H,
    alloc: Global,
    number: u32,
    now: &Progress,
) -> Result<EventOutcome, Ending>
    requires within { place < length play_state.old.parties }
    requires placed { IsPlace play_state.old.parties own.now place }
    requires all_open { AreOpen play_state.old.parties }
    requires slots { AllSlots (H.has_slot shelf.old) (owners play_state.old.parties) }
    ensures played { IfOk result (λ outcome. PlaysAt H.Disk.told (H.faults shelf.old) (H.faults shelf.new) play_state.old play_state.new place None number now.now outcome) }
    ensures broken { IfErr result (λ end. (why : Failure) × (end ≡ Ending.Failed why) × BreaksHonest H.Disk.told (H.entry shelf.new) play_state.old play_state.new place None now.now.moment why) }
    ensures crash { Crosses H.Disk.told (H.entry shelf.old) (H.entry shelf.new) (LineAct.Refuse own.now number) play_state.old play_state.new now.now }
    ensures around { Around H.Disk.told play_state.old.parties play_state.new.parties (H.entry shelf.old) (H.entry shelf.new) (H.has_slot shelf.old) (H.has_slot shelf.new) (H.faults shelf.old) (H.faults shelf.new) result }
{
    let Some(stop) = now.stop else {
        return Ok(EventOutcome::Refused(number));
    };
    let node = play_state.parties.take_out(place);
    let Ok(expected) = Expected::of_unheard(alloc, &node) else {
        play_state.parties.put_in(place, PartyDisk::Open(node));
        return Err(Ending::Failed(Failure::NoMemory));
    };
    node.view();
    reopen(
        &mut play_state.parties,
        place,
        own,
        shelf,
        alloc,
        Ok(node.into_disk()),
        &expected,
        stop,
    )?;
    Ok(EventOutcome::Stopped)
}

/// An event.
pub(crate) fn play_act<H: Shelf>(
    play_state: &mut PlayState<H::Disk>,
    shelf: &mut H,
    alloc: Global,
    act: &LineAct,
    now: &Progress,
) -> Result<EventOutcome, Ending>
    requires all_open { AreOpen play_state.old.parties }
    requires slots { AllSlots (H.has_slot shelf.old) (owners play_state.old.parties) }
    ensures acted { IfOk result (λ outcome. Acts H.Disk.told (H.faults shelf.old) (H.faults shelf.new) act.now play_state.old play_state.new now.now outcome) }
    ensures forged { (n : ℕ) → result ≡ Err (Ending.Forged n) → (n ≡ now.now.number) × (play_state.new ≡ play_state.old) × Forges H.Disk.told act.now play_state.old }
    ensures broken { (why : Failure) → result ≡ Err (Ending.Failed why) → BreaksAct H.Disk.told (H.entry shelf.new) act.now play_state.old play_state.new now.now why }
    ensures crash { Crosses H.Disk.told (H.entry shelf.old) (H.entry shelf.new) act.now play_state.old play_state.new now.now }
    ensures write { result ≡ Err Ending.Write → ⊥ }
    ensures around { Around H.Disk.told play_state.old.parties play_state.new.parties (H.entry shelf.old) (H.entry shelf.new) (H.has_slot shelf.old) (H.has_slot shelf.new) (H.faults shelf.old) (H.faults shelf.new) result }
{
    match act {
        LineAct::Nothing => Ok(EventOutcome::Nothing),
        LineAct::Give { party, input } => {
            let Some(place) = play_state.parties.place_of(party) else {
                return Ok(EventOutcome::Nothing);
            };
            play_input(play_state, place, party, shelf, alloc, input, now)
        }
        LineAct::Refuse { party, number } => {
            let Some(place) = play_state.parties.place_of(party) else {
                return Ok(EventOutcome::Nothing);
            };
            play_unheard(play_state, place, party, shelf, alloc, *number, now)
        }
    }
}
