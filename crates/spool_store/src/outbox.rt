// The outbox of a batch.
ghost use Rattle.std.specs.Prelude.{◌≡◌, ◌-◌, ◌++◌, ◌∷◌, [], length, IfOk, OnOk};
ghost use Rattle.spool_store.specs.Spools.{outbox_from, outbox_of, reply_line, verdict_line};

use crate::entry_plan::EntryPlan;
use crate::spool::Spool;
use csm_batch::push_number;
use std::alloc::Global;
use x_base::{NoMemory, Text};
use x_disk::Disk;

/// Appends the line that an entry is done, or refused with a number.
fn push_verdict(out: &mut Text, e: u64, number: u16) -> Result<(), NoMemory>
    ensures { OnOk result (out.new ≡ out.old ++ verdict_line e number) }
{
    out.push(b"E")?;
    push_number(out, e)?;
    if number == 0 {
        return out.push(b" DONE\n");
    }
    out.push(b" REFUSED ")?;
    push_number(out, u64::from(number))?;
    out.push(b"\n")
}

/// Appends the line of a reply, where there is one.
fn push_reply(out: &mut Text, reply: &[u8]) -> Result<(), NoMemory>
    ensures { OnOk result (out.new ≡ out.old ++ reply_line reply.now) }
{
    if reply.is_empty() {
        return Ok(());
    }
    out.push(reply)?;
    out.push(b"\n")
}

/// Appends the lines of a plan.
fn push_plan(out: &mut Text, e: u64, plan: &EntryPlan) -> Result<(), NoMemory>
    ensures { OnOk result (out.new ≡ out.old ++ outbox_from e (plan.now ∷ [])) }
{
    push_verdict(out, e, plan.number)?;
    push_reply(out, plan.reply.bytes())
}

/// The lines of plans.
fn outbox_text(alloc: Global, plans: &[EntryPlan]) -> Result<Text, NoMemory>
    ensures { IfOk result (λ text. text ≡ outbox_of plans.now) }
{
    let mut out = Text::new(alloc);
    for i in 0..plans.len() {
        push_plan(&mut out, i as u64 + 1, &plans[i])?;
    }
    Ok(out)
}

impl<E: Disk> Spool<E> {
    /// For each entry that has a plan the line `Ee DONE` or `Ee REFUSED n`, with its number from 1, and a line with the
    /// reply where there is one.
    pub fn outbox(&self, alloc: Global) -> Result<Text, NoMemory>
        ensures { IfOk result (λ text. text ≡ outbox_of self.now.progress.plans) }
    {
        outbox_text(alloc, &self.progress().plans)
    }

    /// How many entries have no plan yet.
    pub fn open_entries(&self) -> usize
        ensures { result ≡ length self.now.progress.entries - length self.now.progress.plans }
    {
        let progress = self.progress();
        progress.batch.entries().len() - progress.plans.len()
    }
}
