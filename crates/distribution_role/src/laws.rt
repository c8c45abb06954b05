// What is known of a distribution centre's rows, by calls that do nothing.
ghost use Rattle.std.specs.Prelude.{◌≡◌, ◌↔◌, ◌⊎◌, ℕ, true, None};
ghost use Rattle.csm_grammar.specs.declared.arrival.Arrival.{Arrival as TheArrival};
ghost use Rattle.party_state.specs.declared.command.Input.{Input as TheInput};
ghost use Rattle.party_state.specs.State.{Party};
ghost use Rattle.party_state.specs.Verdicts.{is_accept};
ghost use Rattle.role_base.specs.Texts.{is_plain};
ghost use Rattle.role_base.specs.Beginning.{AllBeginFree};
ghost use Rattle.role_base.specs.Apart.{AreApart};
ghost use Rattle.role_base.specs.Errors.{is_early};
ghost use Rattle.distribution_role.specs.Rows.{distribution_message, distribution_lead, distribution_row};
ghost use Rattle.distribution_role.specs.Serving.{AnswersRequests, AnswersAgain};
ghost use Rattle.distribution_role.specs.Giving.{GivesAsked, GivesAgain};

use csm_grammar::law_arrived;
use party_state::{law_accept, law_found, law_put, law_same};
use x_gen::law_draws_odd;
use x_seal::{law_unseals, law_unwraps};

/// The edits of an accepted row are apart: the two links that an answer puts are not one link. No row
/// begins an exchange.
pub fn law_distribution_apart()
    ensures apart { (p : Party) (i : TheInput) (moment : ℕ) → is_accept (distribution_row p i moment).verdict ≡ true → AreApart (distribution_row p i moment).edits }
    ensures begins { (p : Party) (i : TheInput) (moment : ℕ) → AllBeginFree p (distribution_row p i moment).edits }
{
    law_accept();
    law_same();
    law_found();
    law_put();
    role_base::law_commands();
}

/// There is no key to test the code of an arrival under exactly where the arrival is closed by an
/// error detection code, or is refused before its code is looked at.
pub fn law_distribution_lead()
    ensures { (p : Party) (a : TheArrival) (moment : ℕ) →
        ((distribution_lead p a a.parsed.message ≡ None) ↔ ((is_plain a.parsed.shut ≡ true) ⊎ (is_early (distribution_message p a a.parsed.message moment).verdict ≡ true))) }
{
    law_arrived();
}

/// A request, and one that comes again, are accepted exactly where they can be answered.
pub fn law_answers()
    ensures requests { AnswersRequests }
    ensures again { AnswersAgain }
{
    law_accept();
}

/// An accepted request gives the key that is drawn to both banks, at the next counts of their links,
/// or at the count that the ultimate recipient expects, and the centre keeps it.
pub fn law_gives()
    ensures requests { GivesAsked }
    ensures again { GivesAgain }
{
    law_accept();
    law_same();
    law_found();
    law_put();
    law_unwraps();
    law_unseals();
    law_draws_odd();
}
