// The bytes of a plan are written.
ghost use Rattle.std.specs.Prelude.{◌≡◌, ◌≤◌, ◌<◌, ◌^◌, ◌∷◌, ◌++◌, ◌↔◌, length, IfOk, OnOk, IsTrue};
ghost use Rattle.key_journal.specs.Journal.{frame_of};
ghost use Rattle.spool_store.specs.Plans.{IsEntryPlan, longest_plan, plan_body};

use crate::entry_plan::EntryPlan;
use crate::parsing::{LONGEST_PLAN, PLAN};
use change_code::{EditCode, put_half_word};
use key_journal::close_frame;
use std::alloc::Global;
use x_base::{NoMemory, Text};

/// Whether a plan has 3,000 bytes at most.
#[tactic(auto, using(crate::proofs::Bytes::plan_long))]
pub fn is_short(plan: &EntryPlan) -> bool
    ensures { IsTrue result ↔ (length (plan_body plan.now) ≤ longest_plan) }
{
    plan.reply
        .bytes()
        .len()
        .saturating_add(plan.change.bytes().len())
        <= LONGEST_PLAN - 5
}

/// Four bytes for a length, and the bytes of a plan.
fn put_plan(out: &mut Text, plan: &EntryPlan) -> Result<(), NoMemory>
    requires { length plan.now.reply < 2 ^ 16 }
    ensures { OnOk result (out.new ≡ out.old ++ (0 ∷ 0 ∷ 0 ∷ 0 ∷ plan_body plan.now)) }
{
    let reply = plan.reply.bytes();
    let mut head = EditCode::new();
    head.put(&[0, 0, 0, 0, PLAN]);
    put_half_word(&mut head, plan.number);
    put_half_word(&mut head, reply.len() as u16);
    out.push(head.bytes())?;
    out.push(reply)?;
    out.push(plan.change.bytes())
}

/// The frame of a plan.
pub(crate) fn plan_frame(alloc: Global, plan: &EntryPlan) -> Result<Text, NoMemory>
    requires { IsEntryPlan plan.now }
    ensures { IfOk result (λ frame. frame ≡ frame_of (plan_body plan.now)) }
{
    let mut text = Text::with_capacity(alloc, LONGEST_PLAN + 5)?;
    put_plan(&mut text, plan)?;
    close_frame(&mut text)?;
    Ok(text)
}
