// What is known of a translation centre's rows, by calls that do nothing.
ghost use Rattle.std.specs.Prelude.{◌≡◌, ◌↔◌, ◌⊎◌, true, None};
ghost use Rattle.csm_grammar.specs.declared.arrival.Arrival.{Arrival as TheArrival};
ghost use Rattle.party_state.specs.declared.command.Input.{Input as TheInput};
ghost use Rattle.party_state.specs.State.{Party};
ghost use Rattle.role_base.specs.Texts.{is_plain};
ghost use Rattle.role_base.specs.Beginning.{AllBeginFree};
ghost use Rattle.role_base.specs.Apart.{AreApart};
ghost use Rattle.role_base.specs.Errors.{is_early};
ghost use Rattle.translation_role.specs.Rows.{translation_message, translation_lead, translation_row};
ghost use Rattle.translation_role.specs.Serving.{TranslatesExactly, ReturnsKeys, AnswersLow, AnswersSpent, AnswersNoOther};

use csm_grammar::law_arrived;
use party_state::{law_accept, law_found, law_put, law_same};
use x_seal::{law_keys_below, law_unseals};

/// The edits of a row are apart: the two links that a translation puts have different sides. No row
/// begins an exchange.
pub fn law_translation_apart()
    ensures apart { (p : Party) (i : TheInput) → AreApart (translation_row p i).edits }
    ensures begins { (p : Party) (i : TheInput) → AllBeginFree p (translation_row p i).edits }
{
    law_same();
    law_found();
    law_put();
    role_base::law_commands();
}

/// There is no key to test the code of an arrival under exactly where the arrival is closed by an
/// error detection code, or is refused before its code is looked at.
pub fn law_translation_lead()
    ensures { (p : Party) (a : TheArrival) →
        ((translation_lead p a a.parsed.message ≡ None) ↔ ((is_plain a.parsed.shut ≡ true) ⊎ (is_early (translation_message p a a.parsed.message).verdict ≡ true))) }
{
    law_arrived();
}

/// A request for service is accepted exactly where it can be answered; then the key that it carries
/// goes back for the ultimate recipient, at the next count of its link, and both counts are used.
pub fn law_translates()
    ensures exactly { TranslatesExactly }
    ensures returned { ReturnsKeys }
{
    law_accept();
    law_same();
    law_found();
    law_put();
    law_unseals();
    law_keys_below();
}

/// A request that is refused for a count is answered by an error message that names it, closed under
/// the key that the request carries. No other refusal is answered.
pub fn law_refused_counts()
    ensures low { AnswersLow }
    ensures spent { AnswersSpent }
    ensures others { AnswersNoOther }
{}
