// The plan of an entry, and its bytes.
ghost use Rattle.std.specs.Prelude.{◌≡◌, ◌<◌, ℕ, List, unwrap_or, [], true, IfOk};
ghost use Rattle.key_journal.specs.Journal.{frame_of};
ghost use Rattle.party_state.specs.declared.edit.Edit.{Edit as TheEdit};
ghost use Rattle.change_code.specs.declared.format.Format.{Format as TheFormat};
ghost use Rattle.change_code.specs.declared.format.Format.TheVariants.{Two};
ghost use Rattle.change_code.specs.Code.{IsCode};
ghost use Rattle.party_state.specs.Ranges.{HasNoBegin};
ghost use Rattle.csm_spool.specs.Planning.{code_or_nothing, entry_plan, plan_of_unheard};
ghost use Rattle.spool_store.specs.Plans.{IsChange, is_number};
ghost use Rattle.csm_feed.specs.Numbers.{unheard_number};
ghost use Rattle.x_base.specs.Verdict.{number_of};

use change_code::{CodeFault, Format, decode, encode_behind, law_one_change};
use csm_feed::Unheard;
use node_core::Planned;
use spool_store::EntryPlan;
use std::alloc::Global;
use x_base::{NoMemory, Text, Verdict};
use x_disk::Disk;

/// The code in format 2 of the change whose code these bytes are, in whatever format.
fn code_anew(alloc: Global, code: &[u8]) -> Result<Text, NoMemory>
    requires { (format : TheFormat) × (edits : List TheEdit) × IsCode format code.now edits }
    ensures { IfOk result (λ text. (format : TheFormat) (edits : List TheEdit) → IsCode format code.now edits → IsCode Two text edits) }
{
    law_one_change();
    match decode(alloc, code) {
        Ok(coded) => encode_behind(alloc, &[], Format::Two, &coded.change),
        Err(CodeFault::NoMemory) => Err(NoMemory),
        Err(CodeFault::Bad) => unreachable!(),
    }
}

/// The body of a frame.
fn body_of(frame: &[u8]) -> &[u8]
    requires { (body : List ℕ) × (frame.now ≡ frame_of body) }
    ensures { (body : List ℕ) → frame.now ≡ frame_of body → result.now ≡ body }
{
    let (_, rest) = frame.split_at(4);
    let end = frame.len() - 5;
    let (body, _) = rest.split_at(end);
    body
}

/// The code in format 2 of what a node will keep, or nothing where nothing changes.
fn code_of<D: Disk>(alloc: Global, planned: &Planned<D>) -> Result<Text, NoMemory>
    ensures code { IfOk result (λ code. code ≡ code_or_nothing planned.now.plan.edits) }
    ensures change { IfOk result (λ code. HasNoBegin planned.now.plan.edits → IsChange code) }
{
    match planned.frame() {
        Some(frame) => code_anew(alloc, body_of(frame.bytes())),
        None => Ok(Text::new(alloc)),
    }
}

/// A text, or nothing.
fn text_or_nothing(alloc: Global, text: &Option<Text>) -> Result<Text, NoMemory>
    ensures { IfOk result (λ t. t ≡ unwrap_or text.now []) }
{
    match text {
        Some(text) => text.copy(alloc),
        None => Ok(Text::new(alloc)),
    }
}

/// The number of a verdict, in two bytes.
fn short_number(verdict: &Verdict) -> u16
    ensures number { result ≡ number_of verdict.now }
    ensures listed { is_number result ≡ true }
{
    verdict.number() as u16
}

/// The number of a refusal to hear a message, in two bytes.
fn short_refusal(unheard: Unheard) -> u16
    ensures { result ≡ unheard_number unheard }
{
    unheard.number() as u16
}

/// The plan of what a node will do.
pub(crate) fn plan_of<D: Disk>(alloc: Global, planned: &Planned<D>) -> Result<EntryPlan, NoMemory>
    ensures plan { IfOk result (λ p. p ≡ entry_plan planned.now.plan) }
    ensures number { IfOk result (λ p. is_number p.number ≡ true) }
    ensures change { IfOk result (λ p. HasNoBegin planned.now.plan.edits → IsChange p.change) }
{
    let answer = planned.plan();
    let change = code_of(alloc, planned)?;
    let reply = text_or_nothing(alloc, &answer.reply)?;
    Ok(EntryPlan {
        number: short_number(&answer.verdict),
        reply,
        change,
    })
}

/// The plan of an entry that is refused as no message.
pub(crate) fn plan_of_unheard(alloc: Global, unheard: Unheard) -> EntryPlan
    ensures { result ≡ plan_of_unheard unheard }
{
    EntryPlan {
        number: short_refusal(unheard),
        reply: Text::new(alloc),
        change: Text::new(alloc),
    }
}
