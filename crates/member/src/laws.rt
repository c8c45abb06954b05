// What is known of every party, by calls that do nothing.
ghost use Rattle.std.specs.Prelude.{◌≡◌, ◌↔◌, ◌⊎◌, ℕ, true, false, [], None};
ghost use Rattle.x_base.specs.declared.verdict.Verdict.TheVariants.{Accept};
ghost use Rattle.csm_grammar.specs.declared.arrival.Arrival.{Arrival as TheArrival};
ghost use Rattle.party_state.specs.declared.command.Input.{Input as TheInput};
ghost use Rattle.party_state.specs.declared.command.Input.TheVariants.{Arrived};
ghost use Rattle.party_state.specs.declared.edit.Edit.{Edit as TheEdit};
ghost use Rattle.party_tables.specs.Keys.{link_key, same_link};
ghost use Rattle.party_tables.specs.Tables.{Distinct};
ghost use Rattle.party_state.specs.State.{Party, apply_edit, apply};
ghost use Rattle.party_state.specs.Verdicts.{is_accept};
ghost use Rattle.party_state.specs.Ranges.{IsParty};
ghost use Rattle.role_base.specs.Ranged.{IsInput, IsRanged};
ghost use Rattle.role_base.specs.Texts.{is_plain};
ghost use Rattle.role_base.specs.Errors.{is_early};
ghost use Rattle.role_base.specs.Differing.{differs, always_differs, differing};
ghost use Rattle.role_base.specs.Apart.{AreDone, NoneDone};
ghost use Rattle.member.specs.Rows.{row_at};
ghost use Rattle.member.specs.Leads.{lead_at};
ghost use Rattle.member.specs.Deciding.{decision};
ghost use Rattle.member.specs.Serving.{Serves};
ghost use Rattle.member.specs.Taking.{TakesAsBank, PassesAsBank};

use crate::bank_laws::{
    law_bank_apart, law_bank_lead, law_bank_passing, law_bank_ranged, law_bank_taking,
};
use party_state::law_accept;

/// There is no key to test the code of an arrival under exactly where the arrival is closed by an
/// error detection code, or is refused before its code is looked at.
pub fn law_role_lead()
    ensures { (p : Party) (a : TheArrival) (moment : ℕ) →
        ((lead_at p a ≡ None) ↔ ((is_plain a.parsed.shut ≡ true) ⊎ (is_early (decision p (Arrived a) moment).verdict ≡ true))) }
{
    law_bank_lead();
    distribution_role::law_distribution_lead();
    translation_role::law_translation_lead();
}

/// An edit that makes no difference changes nothing. One that changes nothing makes no difference,
/// but for an exchange that is put and a party that begins, which always do. Where the
/// edits of an accepted row that make none are left out, the others give the same party, if it has
/// each link once.
pub fn law_differing()
    ensures unchanged { (p : Party) (e : TheEdit) → differs p e ≡ false → apply_edit e p ≡ p }
    ensures needed { (p : Party) (e : TheEdit) → always_differs e ≡ false → apply_edit e p ≡ p → differs p e ≡ false }
    ensures left_out { (p : Party) (i : TheInput) (moment : ℕ) → Distinct link_key same_link p.links → is_accept (row_at p i moment).verdict ≡ true →
        apply (differing p (row_at p i moment).edits) p ≡ apply (row_at p i moment).edits p }
{
    role_base::law_differing();
    law_bank_apart();
    distribution_role::law_distribution_apart();
    translation_role::law_translation_apart();
}

/// Of the change of each decision, at a party that has each link once, no edit is done at the party,
/// and all are done at each party behind the change: so a change that isn't empty changes the party,
/// and a change that is made twice leaves what it leaves when it is made once.
pub fn law_settling()
    ensures undone { (p : Party) (i : TheInput) (moment : ℕ) → NoneDone p (decision p i moment).change }
    ensures done { (p q : Party) (i : TheInput) (moment : ℕ) → Distinct link_key same_link p.links → AreDone (apply (decision p i moment).change q) (decision p i moment).change }
    ensures changes { (p : Party) (i : TheInput) (moment : ℕ) → Distinct link_key same_link p.links → apply (decision p i moment).change p ≡ p → (decision p i moment).change ≡ [] }
    ensures twice { (p q : Party) (i : TheInput) (moment : ℕ) → Distinct link_key same_link p.links →
        apply (decision p i moment).change (apply (decision p i moment).change q) ≡ apply (decision p i moment).change q }
{
    role_base::law_settling();
    law_bank_apart();
    distribution_role::law_distribution_apart();
    translation_role::law_translation_apart();
}

/// What a decision changes can be kept, each part of it in its range, so that it has a code, and what
/// it writes has at most 1,024 bytes, where the parts of the party and of a command are in their
/// ranges.
pub fn law_ranged()
    ensures { (p : Party) (i : TheInput) (moment : ℕ) → IsParty p → IsInput i → IsRanged p (decision p i moment) }
{
    law_bank_ranged();
    distribution_role::law_ranged();
    translation_role::law_ranged();
}

/// A key that a key service message brings, from a partner or a centre, alone, with a new
/// key-encrypting key or with a second data key, is accepted exactly where the party is a bank and
/// can take it.
pub fn law_taking()
    ensures { (p : Party) (i : TheInput) (moment : ℕ) → TakesAsBank p i (decision p i moment) }
{
    law_accept();
    law_bank_taking();
}

/// A centre's answer is accepted exactly where the party is a bank and its key can go on to the
/// ultimate recipient.
pub fn law_passing()
    ensures { (p : Party) (i : TheInput) (moment : ℕ) → PassesAsBank p i (decision p i moment) }
{
    law_accept();
    law_bank_passing();
}

/// What a party accepts is a command or a message of a class that its role serves: a bank answers no
/// request that is for a centre, and a centre accepts its own requests and loading under its own
/// label, and nothing else.
pub fn law_serves()
    ensures { (p : Party) (i : TheInput) (moment : ℕ) → (decision p i moment).verdict ≡ Accept → Serves p.role i }
{
    distribution_role::law_serves();
    translation_role::law_serves();
}
