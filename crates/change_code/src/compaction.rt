// A party as one change.
ghost use Rattle.std.specs.Prelude.{◌≡◌, ◌<◌, ◌+◌, ◌++◌, length, map, OnOk, IfOk, IfErr};
ghost use Rattle.party_state.specs.declared.edit.Edit.TheVariants.{PutLink, PutKey, PutExchange, PutAnswer};
ghost use Rattle.change_code.specs.Code.{edits_code, IsCode};
ghost use Rattle.change_code.specs.Whole.{whole_edits, whole_of, IsTooLarge};

use crate::encoding::{
    MOST_EDITS, headed, put_answer_edit, put_begin, put_closing, put_exchange_edit, put_key_edit,
    put_link_edit,
};
use crate::fault::WholeFault;
use crate::format::Format;
use crate::room::room_behind_whole;
use key_journal::LARGEST_BODY;
use party_state::State;
use std::alloc::Global;
use x_base::{NoMemory, Text};

fn put_links(out: &mut Text, state: &State) -> Result<(), NoMemory>
    ensures { OnOk result (out.new ≡ out.old ++ edits_code (map PutLink state.now.links)) }
{
    for i in 0..state.link_count() {
        match state.link_at(i) {
            Some(link) => put_link_edit(out, link)?,
            None => unreachable!(),
        }
    }
    Ok(())
}

fn put_keys(out: &mut Text, state: &State) -> Result<(), NoMemory>
    ensures { OnOk result (out.new ≡ out.old ++ edits_code (map PutKey state.now.keys)) }
{
    for i in 0..state.key_count() {
        match state.key_at(i) {
            Some(key) => put_key_edit(out, key)?,
            None => unreachable!(),
        }
    }
    Ok(())
}

fn put_exchanges(out: &mut Text, state: &State) -> Result<(), NoMemory>
    ensures { OnOk result (out.new ≡ out.old ++ edits_code (map PutExchange state.now.exchanges)) }
{
    for i in 0..state.exchange_count() {
        match state.exchange_at(i) {
            Some(exchange) => put_exchange_edit(out, exchange)?,
            None => unreachable!(),
        }
    }
    Ok(())
}

fn put_answers(out: &mut Text, state: &State) -> Result<(), NoMemory>
    ensures { OnOk result (out.new ≡ out.old ++ edits_code (map PutAnswer state.now.answers)) }
{
    for i in 0..state.answer_count() {
        match state.answer_at(i) {
            Some(answer) => put_answer_edit(out, answer)?,
            None => unreachable!(),
        }
    }
    Ok(())
}

/// The edits that make the party from nothing.
fn put_whole(out: &mut Text, state: &State) -> Result<(), NoMemory>
    ensures { OnOk result (out.new ≡ out.old ++ edits_code (whole_edits state.now)) }
{
    put_begin(out, &state.own(), state.role(), state.generator())?;
    put_links(out, state)?;
    put_keys(out, state)?;
    put_exchanges(out, state)?;
    put_answers(out, state)
}

/// How many edits make the party from nothing.
fn edit_count(state: &State) -> u128
    ensures { result ≡ length (whole_edits state.now) }
{
    1 + state.link_count() as u128
        + state.key_count() as u128
        + state.exchange_count() as u128
        + state.answer_count() as u128
}

fn whole_code(
    alloc: Global,
    front: &[u8],
    format: Format,
    state: &State,
    edits: u16,
) -> Result<Text, NoMemory>
    requires { edits ≡ length (whole_edits state.now) }
    ensures { IfOk result (λ text. text ≡ front.now ++ whole_of format state.now) }
{
    let room = room_behind_whole(front.len(), state);
    let mut out = headed(alloc, room, front, format, edits)?;
    put_whole(&mut out, state)?;
    put_closing(&mut out, front.len(), format)?;
    Ok(out)
}

/// Bytes, and behind them the body of a compaction in a format: the code of the one change that makes the party from nothing.
/// Comes with `TooLarge` exactly where that change has more than 65,535 edits or its code more than 4,194,304 bytes.
pub fn whole_behind(
    alloc: Global,
    front: &[u8],
    format: Format,
    state: &State,
) -> Result<Text, WholeFault>
    ensures whole { IfOk result (λ text. text ≡ front.now ++ whole_of format state.now) }
    ensures code { OnOk result (IsCode format (whole_of format state.now) (whole_edits state.now)) }
    ensures fits { OnOk result (IsTooLarge format state.now → ⊥) }
    ensures too_large { IfErr result (λ fault. fault ≡ WholeFault.TooLarge → IsTooLarge format state.now) }
{
    state.law_party();
    let edits = edit_count(state);
    if edits > MOST_EDITS as u128 {
        return Err(WholeFault::TooLarge);
    }
    let text = whole_code(alloc, front, format, state, edits as u16)?;
    if text.bytes().len() - front.len() > LARGEST_BODY as usize {
        return Err(WholeFault::TooLarge);
    }
    Ok(text)
}
