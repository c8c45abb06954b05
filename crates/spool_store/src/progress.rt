// A batch, and the plans of its first entries.
use crate::entry_plan::EntryPlan;
use csm_batch::Batch;
use std::marker::Model;

/// A batch, and the plans of its first entries.
#[derive(Drop)]
pub struct Progress {
    pub(crate) batch: Batch,
    pub(crate) plans: Vec<EntryPlan>,
}

impl Model for Progress {
    ghost use Rattle.spool_store.specs.Contents.{Progress as TheProgress, IsProgress};

    ghost Value = { TheProgress };

    ghost view = { λ p. record { text = p.batch.0; entries = p.batch.1; plans = p.plans.items } };

    ghost invariant = { λ p. IsProgress (record { text = p.batch.0; entries = p.batch.1; plans = p.plans.items }) };
}

/// What the bodies of a spool's journal make: nothing yet, or a batch with plans.
#[derive(Drop)]
pub struct Contents {
    pub(crate) progress: Option<Progress>,
}

impl Model for Contents {
    ghost use Rattle.std.specs.Prelude.{Option};
    ghost use Rattle.spool_store.specs.Contents.{Progress as TheProgress};

    ghost Value = { Option TheProgress };

    ghost view = { λ c. c.progress };
}
