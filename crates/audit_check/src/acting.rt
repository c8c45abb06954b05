// An event: it is tested, and carried out whole, or cut as the next letter says where a stop waits.
ghost use Rattle.std.specs.Prelude.{◌≡◌, ◌<◌, ◌++◌, List, length, map, true, Err, IfOk, OnOk, Some, None, option_to_list};
ghost use Rattle.change_code.specs.Cost.{fits, is_change};
ghost use Rattle.member.specs.Member.{after};
ghost use Rattle.member.specs.Answers.{answer_of};
ghost use Rattle.world_laws.specs.World.{Fact};
ghost use Rattle.world_laws.specs.Honest.{named_text};
ghost use Rattle.world_laws.specs.Noted.{noted};
ghost use Rattle.course.specs.Outcomes.{outcome_of};
ghost use Rattle.audit_check.specs.Events.{IsActedHeld, IsCutBy, IsWrongAt, IsWrongInput, LacksLetter, PlaysAt};
ghost use Rattle.audit_check.specs.States.{HoldsEach, Acts, ActsWrongly};
ghost use Rattle.scenario.specs.declared.audit_fault.AuditFault.{AuditFault as TheFault};

use crate::failure::Failure;
use crate::letters::Letters;
use crate::state::AuditState;
use course::{EventOutcome, LineAct, is_honest, note, note_if, outcome_of};
use fact_book::{FactBook, Texts};
use member::{Answer, Holder, PartyInMemory, PlannedInMemory};
use party_state::Input;
use scenario::AuditFault;
use std::alloc::Global;
use world_laws::law_inputs;
use x_base::NoMemory;

/// What is planned at a party is carried out. The party, and its answer.
fn carry_out(planned: PlannedInMemory) -> (PartyInMemory, Answer)
    ensures next { result.0 ≡ after planned.member planned.plan.edits }
    ensures answer { result.1 ≡ answer_of planned.plan }
{
    match PartyInMemory::carry_out(planned) {
        Ok(done) => done,
        Err(never) => match never {},
    }
}

/// What is planned at a party is carried out whole. What is written is put behind the texts, and its fact is noted.
fn act_whole(
    planned: PlannedInMemory,
    texts: &mut Texts,
    facts: &mut FactBook,
) -> Result<(PartyInMemory, EventOutcome), NoMemory>
    ensures next { IfOk result (λ done. done.0 ≡ after planned.member planned.plan.edits) }
    ensures outcome { IfOk result (λ done. done.1 ≡ outcome_of planned.plan.verdict) }
    ensures texts { IfOk result (λ done. texts.new ≡ texts.old ++ option_to_list planned.plan.reply) }
    ensures facts { IfOk result (λ done. facts.new ≡ facts.old ++ noted planned.plan.under planned.plan.reply) }
{
    let (held, answer) = carry_out(planned);
    note(facts, texts, answer.under, &answer.reply)?;
    Ok((held, outcome_of(answer.verdict)))
}

/// What is planned at a party with so much room is stopped, and cut as the next letter says. Where the new state stands, the
/// fact of what isn't written is noted. A change takes room.
fn act_cut(
    planned: PlannedInMemory,
    room: u64,
    letters: &mut Letters,
    facts: &mut FactBook,
    number: u32,
) -> Result<PartyInMemory, Failure>
    requires room { room ≡ planned.member.space.room }
    requires fits { fits planned.member.space planned.plan.edits ≡ true }
    ensures cut { IfOk result (λ held. IsCutBy planned held letters.old letters.new facts.old facts.new) }
    ensures lacking { (f : TheFault) → result ≡ Err (Failure.Wrong f) → LacksLetter letters.old (is_change planned.plan.edits) number f }
{
    let Some(next) = letters.take() else {
        return Err(Failure::Wrong(AuditFault::Letters(number)));
    };
    if !next {
        return Ok(PartyInMemory::cancel(planned));
    }
    let (held, answer) = carry_out(planned);
    if held.space().room == room {
        return Err(Failure::Wrong(AuditFault::Impossible(number)));
    }
    match note_if(facts, true, answer.under, &answer.reply) {
        Ok(()) => Ok(held),
        Err(_) => Err(Failure::NoMemory),
    }
}

/// A party has an input. It was taken out of its place.
fn input_held(
    state: &mut AuditState,
    held: PartyInMemory,
    alloc: Global,
    input: &Input,
) -> Result<(PartyInMemory, EventOutcome), Failure>
    ensures acted { IfOk result (λ done. IsActedHeld held input.now state.old state.new done.0 done.1) }
    ensures wrong { (f : TheFault) → result ≡ Err (Failure.Wrong f) → (known : List Fact) → state.old.facts ≡ map named_text known → IsWrongInput state.old.now known state.old.letters held (Some input.now) f }
    ensures now { state.new.now ≡ state.old.now }
    ensures comparison { state.new.comparison ≡ state.old.comparison }
{
    let room = held.space().room;
    let Ok(planned) = held.plan(alloc, input, state.now.moment) else {
        return Err(Failure::NoMemory);
    };
    let number = state.now.number;
    if !is_honest(&state.facts, input, &PartyInMemory::answer(&planned).lead) {
        return Err(Failure::Wrong(AuditFault::Forged(number)));
    }
    match state.now.stop {
        Some(_) => {
            let held = act_cut(planned, room, &mut state.letters, &mut state.facts, number)?;
            Ok((held, EventOutcome::Stopped))
        }
        None => {
            let done = act_whole(planned, &mut state.texts, &mut state.facts)?;
            Ok(done)
        }
    }
}

/// The party at a place has an input.
fn input_at(
    state: &mut AuditState,
    place: usize,
    alloc: Global,
    input: &Input,
) -> Result<EventOutcome, Failure>
    requires holds_each { HoldsEach state.old.parties }
    requires within { place < length state.old.parties.members_held.items }
    ensures played { IfOk result (PlaysAt state.old state.new place (Some input.now) 0) }
    ensures wrong { (f : TheFault) → result ≡ Err (Failure.Wrong f) → IsWrongAt state.old place (Some input.now) f }
    ensures holds_each { OnOk result (HoldsEach state.new.parties) }
    ensures now { state.new.now ≡ state.old.now }
    ensures comparison { state.new.comparison ≡ state.old.comparison }
{
    law_inputs();
    let Some(held) = state.parties.members_held[place].take() else {
        unreachable!();
    };
    let (held, outcome) = input_held(state, held, alloc, input)?;
    state.parties.members_held[place] = Some(held);
    Ok(outcome)
}

/// Bytes of which nothing is heard arrive at the party at a place; the number says why.
fn unheard_at(state: &mut AuditState, place: usize, number: u32) -> Result<EventOutcome, Failure>
    ensures played { IfOk result (PlaysAt state.old state.new place None number) }
    ensures wrong { (f : TheFault) → result ≡ Err (Failure.Wrong f) → IsWrongAt state.old place None f }
    ensures parties { state.new.parties ≡ state.old.parties }
    ensures now { state.new.now ≡ state.old.now }
    ensures comparison { state.new.comparison ≡ state.old.comparison }
{
    match state.now.stop {
        Some(_) => match state.letters.take() {
            Some(false) => Ok(EventOutcome::Stopped),
            Some(true) => Err(Failure::Wrong(AuditFault::Impossible(state.now.number))),
            None => Err(Failure::Wrong(AuditFault::Letters(state.now.number))),
        },
        None => Ok(EventOutcome::Refused(number)),
    }
}

/// An event.
pub(crate) fn perform(
    state: &mut AuditState,
    alloc: Global,
    act: &LineAct,
) -> Result<EventOutcome, Failure>
    requires holds_each { HoldsEach state.old.parties }
    ensures acted { IfOk result (Acts act.now state.old state.new) }
    ensures wrong { (f : TheFault) → result ≡ Err (Failure.Wrong f) → ActsWrongly act.now state.old f }
    ensures holds_each { OnOk result (HoldsEach state.new.parties) }
    ensures now { state.new.now ≡ state.old.now }
    ensures comparison { state.new.comparison ≡ state.old.comparison }
{
    match act {
        LineAct::Nothing => Ok(EventOutcome::Nothing),
        LineAct::Give { party, input } => match state.parties.place_of(party) {
            Some(place) => input_at(state, place, alloc, input),
            None => Ok(EventOutcome::Nothing),
        },
        LineAct::Refuse { party, number } => match state.parties.place_of(party) {
            Some(place) => unheard_at(state, place, *number),
            None => Ok(EventOutcome::Nothing),
        },
    }
}
