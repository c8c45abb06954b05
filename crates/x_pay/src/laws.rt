// What holds of payments over two images, told by a call that does nothing.
ghost use Rattle.std.specs.Prelude.{◌≡◌, ℕ, List};
ghost use Rattle.x_base.specs.declared.key_name.KeyName.{KeyName as TheName};
ghost use Rattle.party_state.specs.State.{Party};
ghost use Rattle.pay_auth.specs.Runs.{Books, Pays, Accepts};
ghost use Rattle.x_pay.specs.Calls.{FindsBooks, IsLedgerCall, TellsPaid, TellsTaken};
ghost use Rattle.x_pay.specs.Dues.{IsDuePayment};
ghost use Rattle.x_pay.specs.Outcomes.{MakesPayment, IsSafePayment};
ghost use Rattle.x_pay.specs.Payments.{paying, accepting};
ghost use Rattle.x_pay.specs.declared.outcome.PayOutcome.{PayOutcome as TheOutcome};

use pay_auth::{Entries, law_one_pay};
use x_disk::Shelf;

/// By the images of the party's disk and the ledger's one outcome is due, and no second one.
pub fn law_one_due()
    ensures paid { (peer : List ℕ) (key : TheName) (amount : ℕ) (name image book : List ℕ) (a b : TheOutcome) → IsDuePayment (paying peer key amount) name image book a → IsDuePayment (paying peer key amount) name image book b → a ≡ b }
    ensures accepted { (bytes name image book : List ℕ) (a b : TheOutcome) → IsDuePayment (accepting bytes) name image book a → IsDuePayment (accepting bytes) name image book b → a ≡ b }
{
    key_store::law_one_finding();
    journal_state::law_one_finding::<Entries>();
    law_one_pay();
}

/// A call over a party and a ledger that stand is one of those of which `law_paid` of pay_auth tells: the whole one where it is
/// done or refused, and its text is that of the payment which the books have more; and where it is cut off, or fails, one that
/// is cut off behind the keeping of its number, or none.
pub fn law_ledger_calls<H: Shelf>()
    ensures paid { (old new : H) (p : Party) (b : Books) (peer : List ℕ) (key : TheName) (amount : ℕ) (name ledger : List ℕ) (o : TheOutcome) → FindsBooks name (H.entry old name) (H.entry old ledger) p b
        → MakesPayment (paying peer key amount) name (H.entry old name) (H.entry old ledger) (H.entry new ledger) o → IsSafePayment (paying peer key amount) name (H.entry old name) (H.entry new name) (H.entry old ledger) (H.entry new ledger)
        → IsLedgerCall (Pays p peer key amount) TellsPaid b (H.entry old ledger) (H.entry new ledger) o }
    ensures accepted { (old new : H) (p : Party) (b : Books) (bytes name ledger : List ℕ) (o : TheOutcome) → FindsBooks name (H.entry old name) (H.entry old ledger) p b
        → MakesPayment (accepting bytes) name (H.entry old name) (H.entry old ledger) (H.entry new ledger) o → IsSafePayment (accepting bytes) name (H.entry old name) (H.entry new name) (H.entry old ledger) (H.entry new ledger)
        → IsLedgerCall (Accepts p bytes) TellsTaken b (H.entry old ledger) (H.entry new ledger) o }
{
    key_store::law_one_finding();
    journal_state::law_one_finding::<Entries>();
}
