// What holds of payments and of ledgers, told by calls that do nothing.
ghost use Rattle.std.specs.Prelude.{◌≡◌, List, ℕ};
ghost use Rattle.pay_auth.specs.declared.pay.Pay.{Pay as ThePay};
ghost use Rattle.pay_auth.specs.declared.entry.Entry.{Entry as TheEntry};
ghost use Rattle.pay_auth.specs.Texts.{SpellsPay};
ghost use Rattle.pay_auth.specs.Runs.{Books, Call, CallsLead, PaidOnce, opened_books};

/// Bytes spell one payment, with one code.
pub fn law_one_pay()
    ensures { (bytes : List ℕ) (p q : ThePay) (mac other : ℕ) → SpellsPay bytes p mac → SpellsPay bytes q other → (p ≡ q) × (mac ≡ other) }
{}

/// Over every list of calls over one ledger, each whole or cut off with the old or the new entries, no two payments that were
/// taken in have the same peer, name and number, and no two texts that were paid out have.
pub fn law_paid()
    ensures { (entries : List TheEntry) (calls : List Call) (end : Books) → CallsLead calls (opened_books entries) end → PaidOnce end }
{}
