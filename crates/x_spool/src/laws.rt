// What holds of a batch over two images, of a spool's, and of every stream, told by calls that do nothing.
ghost use Rattle.std.specs.Prelude.{◌≡◌, ℕ, List};
ghost use Rattle.x_spool.specs.Dues.{IsDueBatch, IsSame};
ghost use Rattle.x_spool.specs.Inbox.{OneInbox};
ghost use Rattle.x_spool.specs.Outboxes.{IsDueOutbox};
ghost use Rattle.x_spool.specs.declared.outcome.SpoolOutcome.{SpoolOutcome as TheOutcome};
ghost use Rattle.x_spool.specs.declared.outcome.OutboxOutcome.{OutboxOutcome as TheLook};

use csm_read::{law_one_answer, law_read_stays};
use spool_store::Contents;

/// By the images of the party's disk and the spool's one outcome is due, and no second one.
pub fn law_one_due()
    ensures { (name image book text : List ℕ) (a b : TheOutcome) → IsDueBatch name image book text a → IsDueBatch name image book text b → IsSame a b }
{
    key_store::law_one_finding();
    journal_state::law_one_finding::<Contents>();
}

/// By the image of a spool's disk one outcome of a look at its outbox is due, and no second one.
pub fn law_one_outbox()
    ensures { (book : List ℕ) (a b : TheLook) → IsDueOutbox book a → IsDueOutbox book b → a ≡ b }
{
    journal_state::law_one_finding::<Contents>();
}

/// A stream is one list of messages at most, and then it isn't refused; otherwise for one reason at most.
pub fn law_one_inbox()
    ensures { OneInbox }
{
    law_one_answer();
    law_read_stays();
}
