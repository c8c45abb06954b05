// The bytes of a plan are read.
ghost use Rattle.std.specs.Prelude.{◌≡◌, ◌<◌, ◌^◌, ◌↔◌, length, true, false, None, IfOk, IfSome, IsTrue};
ghost use Rattle.party_state.specs.Ranges.{HasNoBegin, IsNoBegin};
ghost use Rattle.spool_store.specs.declared.entry_plan.EntryPlan.{EntryPlan as ThePlan};
ghost use Rattle.spool_store.specs.Plans.{is_number, IsChange, IsPlanBody, IsSplit};

use crate::entry_plan::EntryPlan;
use change_code::{CodeFault, Coded, Format, Reader, decode, law_one_change};
use party_state::{Change, Edit};
use std::alloc::Global;
use x_base::{NoMemory, Text};

/// The byte with which the body of a plan begins.
pub(crate) const PLAN: u8 = b'P';

/// How many bytes a plan has at most.
pub(crate) const LONGEST_PLAN: usize = 3_000;

/// The parts of a plan.
#[derive(Clone, Copy)]
struct Parts<'a> {
    number: u16,
    reply: &'a [u8],
    change: &'a [u8],
}

/// The parts of the bytes of a plan, whatever they are.
fn parts_of(body: &[u8]) -> Option<Parts<'_>>
    ensures some { IfSome result (λ p. IsSplit body.now p.number p.reply.now p.change.now) }
    ensures short { IfSome result (λ p. length p.reply.now < 2 ^ 16) }
    ensures none { result ≡ None → (p : ThePlan) → IsPlanBody body.now p → ⊥ }
{
    let mut reader = Reader::new(body);
    if reader.byte()? != PLAN {
        return None;
    }
    let number = reader.half_word()?;
    let long = usize::from(reader.half_word()?);
    let (_, rest) = body.split_at(5);
    if rest.len() < long {
        return None;
    }
    let (reply, change) = rest.split_at(long);
    Some(Parts {
        number,
        reply,
        change,
    })
}

/// Whether the number is that of a verdict, or of a refusal to hear a message.
fn is_number(n: u16) -> bool
    ensures { result ≡ is_number n }
{
    n == 0 || (4 <= n && n <= 15) || (18 <= n && n <= 34) || (37 <= n && n <= 38)
}

/// Whether an edit begins no party.
fn is_no_begin(edit: &Edit) -> bool
    ensures { IsTrue result ↔ IsNoBegin edit.now }
{
    !matches!(edit, Edit::Begin { .. })
}

/// Whether no edit begins a party.
fn goes_on(change: &Change) -> bool
    ensures { IsTrue result ↔ HasNoBegin change.now }
{
    for i in 0..change.len() {
        match change.edit_at(i) {
            Some(edit) => {
                if !is_no_begin(edit) {
                    return false;
                }
            }
            None => unreachable!(),
        }
    }
    true
}

/// Whether the bytes are nothing, or the code in format 2 of a change that begins no party.
fn is_change(alloc: Global, code: &[u8]) -> Result<bool, NoMemory>
    ensures yes { IfOk result (λ is. is ≡ true → IsChange code.now) }
    ensures no { IfOk result (λ is. is ≡ false → IsChange code.now → ⊥) }
{
    law_one_change();
    if code.is_empty() {
        return Ok(true);
    }
    match decode(alloc, code) {
        Ok(
            Coded {
                format: Format::Two,
                change,
            },
        ) => Ok(goes_on(&change)),
        Ok(_) => Ok(false),
        Err(CodeFault::Bad) => Ok(false),
        Err(CodeFault::NoMemory) => Err(NoMemory),
    }
}

/// The bytes in memory of their own.
pub(crate) fn copied(alloc: Global, bytes: &[u8]) -> Result<Text, NoMemory>
    ensures { IfOk result (λ text. text ≡ bytes.now) }
{
    let mut text = Text::with_capacity(alloc, bytes.len())?;
    text.push(bytes)?;
    Ok(text)
}

/// The plan that the bytes are, and none where they are none.
pub(crate) fn read_plan(alloc: Global, body: &[u8]) -> Result<Option<EntryPlan>, NoMemory>
    ensures yes { IfOk result (λ o. IfSome o (IsPlanBody body.now)) }
    ensures no { IfOk result (λ o. o ≡ None → (p : ThePlan) → IsPlanBody body.now p → ⊥) }
{
    if body.len() > LONGEST_PLAN {
        return Ok(None);
    }
    let Some(parts) = parts_of(body) else {
        return Ok(None);
    };
    if !is_number(parts.number) || !is_change(alloc, parts.change)? {
        return Ok(None);
    }
    let reply = copied(alloc, parts.reply)?;
    let change = copied(alloc, parts.change)?;
    Ok(Some(EntryPlan {
        number: parts.number,
        reply,
        change,
    }))
}
