// The bodies of a spool's journal, one after the other.
ghost use Rattle.std.specs.Prelude.{◌≡◌, ◌<◌, ◌≤◌, ◌++◌, ◌∷◌, [], true, false, nat_lt, length, slice_get, Some, None, IfOk, IfSome, OnOk, OnErr};
ghost use Rattle.spool_store.specs.Plans.{IsEntryPlan};
ghost use Rattle.spool_store.specs.Contents.{Progress as TheProgress, IsProgress, BeginsBatch, AddsPlan, with_plan};

use crate::entry_plan::EntryPlan;
use crate::parsing::read_plan;
use crate::progress::{Contents, Progress};
use csm_batch::{Batch, BatchFault, Entry, law_one_reading};
use journal_state::Judge;
use std::alloc::Global;
use x_base::NoMemory;

/// The byte with which the body of a batch begins.
pub(crate) const BATCH: u8 = b'S';

fn push_plan(plans: &mut Vec<EntryPlan>, plan: EntryPlan) -> Result<(), NoMemory>
    ensures done { OnOk result (plans.new.items ≡ plans.old.items ++ plan ∷ []) }
    ensures kept { OnErr result (plans.new.items ≡ plans.old.items) }
{
    match plans.push(plan) {
        Ok(()) => Ok(()),
        Err(_) => Err(NoMemory),
    }
}

impl Progress {
    /// What every progress keeps. It does nothing.
    pub fn law_progress(&self)
        ensures { IsProgress self.now }
    {
        let _plans = self.plans.len();
    }

    /// Whether an entry has no plan yet.
    pub fn has_next(&self) -> bool
        ensures { result ≡ nat_lt (length self.now.plans) (length self.now.entries) }
    {
        self.plans.len() < self.batch.entries().len()
    }

    /// How many entries have a plan.
    pub fn plan_count(&self) -> usize
        ensures { result ≡ length self.now.plans }
    {
        self.plans.len()
    }

    /// Entry `k`, from 0.
    pub fn entry(&self, k: usize) -> &Entry
        requires { k < length self.now.entries }
        ensures entry { slice_get self.now.entries k ≡ Some result.now }
        ensures short { length result.now.bytes ≤ 1040 }
    {
        &self.batch.entries()[k]
    }

    /// Plan `k`, from 0.
    pub fn plan(&self, k: usize) -> &EntryPlan
        requires { k < length self.now.plans }
        ensures plan { slice_get self.now.plans k ≡ Some result.now }
        ensures kept { IsEntryPlan result.now }
    {
        &self.plans[k]
    }

    /// Puts a plan behind the others.
    pub(crate) fn push(&mut self, plan: EntryPlan) -> Result<(), NoMemory>
        requires plan { IsEntryPlan plan }
        requires next { length self.old.plans < length self.old.entries }
        ensures done { OnOk result (self.new ≡ with_plan self.old plan) }
        ensures kept { OnErr result (self.new ≡ self.old) }
    {
        push_plan(&mut self.plans, plan)
    }
}

/// The batch that is the first body, and none where it isn't one.
fn read_first(alloc: Global, body: &[u8]) -> Result<Option<Progress>, NoMemory>
    ensures yes { IfOk result (λ o. IfSome o (BeginsBatch body.now)) }
    ensures no { IfOk result (λ o. o ≡ None → (new : TheProgress) → BeginsBatch body.now new → ⊥) }
{
    law_one_reading();
    let Some((first, text)) = body.split_first() else {
        return Ok(None);
    };
    if *first != BATCH {
        return Ok(None);
    }
    match Batch::read(alloc, text) {
        Ok(batch) => Ok(Some(Progress {
            batch,
            plans: Vec::new(alloc),
        })),
        Err(BatchFault::BadLine(_)) => Ok(None),
        Err(BatchFault::NoMemory) => Err(NoMemory),
    }
}

/// Puts the plan that a later body is, and answers whether it is one for which there is an entry.
fn take_plan(alloc: Global, progress: &mut Progress, body: &[u8]) -> Result<bool, NoMemory>
    ensures yes { IfOk result (λ goes. goes ≡ true → AddsPlan body.now progress.old progress.new) }
    ensures no { IfOk result (λ goes. goes ≡ false → (next : TheProgress) → AddsPlan body.now progress.old next → ⊥) }
{
    if !progress.has_next() {
        return Ok(false);
    }
    match read_plan(alloc, body)? {
        Some(plan) => {
            progress.push(plan)?;
            Ok(true)
        }
        None => Ok(false),
    }
}

impl Contents {
    /// Puts a plan behind the others.
    pub(crate) fn push(&mut self, plan: EntryPlan) -> Result<(), NoMemory>
        requires plan { IsEntryPlan plan }
        requires next { (p : TheProgress) × (self.old ≡ Some p) × (length p.plans < length p.entries) }
        ensures done { OnOk result ((p : TheProgress) → self.old ≡ Some p → self.new ≡ Some (with_plan p plan)) }
        ensures kept { OnErr result (self.new ≡ self.old) }
    {
        match &mut self.progress {
            Some(progress) => progress.push(plan),
            None => unreachable!(),
        }
    }
}

impl Judge for Contents {
    ghost use Rattle.spool_store.specs.Contents.{Goes};
    ghost use Rattle.spool_store.specs.ContentLaws.{one_next};

    ghost start = { None };

    ghost step = { Goes };

    ghost one_next = { one_next };

    fn start(alloc: Global) -> Contents {
        Contents { progress: None }
    }

    fn follow(&mut self, alloc: Global, body: &[u8]) -> Result<bool, NoMemory> {
        match &mut self.progress {
            Some(progress) => take_plan(alloc, progress, body),
            None => {
                self.progress = read_first(alloc, body)?;
                Ok(self.progress.is_some())
            }
        }
    }
}
