// What is known of every bank (ANSI X9.17), by calls that do nothing: of commands, and of messages that arrive.
ghost use Rattle.std.specs.Prelude.{◌≡◌, ◌↔◌, ◌⊎◌, ℕ, true, None};
ghost use Rattle.csm_grammar.specs.declared.arrival.Arrival.{Arrival as TheArrival};
ghost use Rattle.party_state.specs.declared.command.Input.TheVariants.{Arrived};
ghost use Rattle.party_state.specs.declared.command.Input.{Input as TheInput};
ghost use Rattle.party_tables.specs.Keys.{link_key, same_link};
ghost use Rattle.party_tables.specs.Tables.{Distinct};
ghost use Rattle.party_state.specs.State.{Party};
ghost use Rattle.party_state.specs.Verdicts.{is_accept};
ghost use Rattle.party_state.specs.Ranges.{IsParty};
ghost use Rattle.role_base.specs.Ranged.{IsInput, IsRanged};
ghost use Rattle.role_base.specs.Texts.{is_plain};
ghost use Rattle.role_base.specs.Errors.{is_early};
ghost use Rattle.role_base.specs.Beginning.{AllBeginFree};
ghost use Rattle.role_base.specs.Apart.{AreApart};
ghost use Rattle.bank_keys.specs.Taking.{TakesKeys};
ghost use Rattle.bank_keys.specs.Passing.{PassesKeys};
ghost use Rattle.member.specs.BankRows.{row_of};
ghost use Rattle.member.specs.BankLeads.{lead_of};
ghost use Rattle.member.specs.BankDeciding.{decided};

/// There is no key to test the code of an arrival under exactly where the arrival is closed by an
/// error detection code, or is refused before its code is looked at.
pub fn law_bank_lead()
    ensures { (p : Party) (a : TheArrival) (moment : ℕ) →
        ((lead_of p a ≡ None) ↔ ((is_plain a.parsed.shut ≡ true) ⊎ (is_early (decided p (Arrived a) moment).verdict ≡ true))) }
{
    bank_arrivals::law_arrival_lead();
    bank_keys::law_key_lead();
}

/// The edits of an accepted row, at a party that has each link once, are apart. An exchange is begun
/// only with a peer with whom none stands.
pub fn law_bank_apart()
    ensures apart { (p : Party) (i : TheInput) (moment : ℕ) → Distinct link_key same_link p.links → is_accept (row_of p i moment).verdict ≡ true → AreApart (row_of p i moment).edits }
    ensures begins { (p : Party) (i : TheInput) (moment : ℕ) → is_accept (row_of p i moment).verdict ≡ true → AllBeginFree p (row_of p i moment).edits }
{
    bank_orders::law_orders_apart();
    bank_arrivals::law_arrivals_apart();
    bank_keys::law_keys_apart();
    bank_orders::law_begins();
    bank_arrivals::law_begins();
    bank_keys::law_begins();
}

/// What a bank changes can be kept, each part of it in its range, and what it writes has at most 1,024
/// bytes, where the parts of its state and of a command are in their ranges.
pub fn law_bank_ranged()
    ensures { (p : Party) (i : TheInput) (moment : ℕ) → IsParty p → IsInput i → IsRanged p (decided p i moment) }
{
    bank_orders::law_ranged();
    bank_arrivals::law_ranged();
    bank_keys::law_ranged();
}

/// A key that a key service message brings, from a partner or a centre, alone, with a new
/// key-encrypting key or with a second data key, is accepted exactly where it can be taken.
pub fn law_bank_taking()
    ensures { (p : Party) (i : TheInput) (moment : ℕ) → TakesKeys p i (decided p i moment) }
{
    bank_keys::law_taking();
}

/// A centre's answer is accepted exactly where its key can go on to the ultimate recipient.
pub fn law_bank_passing()
    ensures { (p : Party) (i : TheInput) (moment : ℕ) → PassesKeys p i (decided p i moment) }
{
    bank_keys::law_passing();
}
