// What is known of the rows of arrivals, by calls that do nothing.
ghost use Rattle.std.specs.Prelude.{◌≡◌, ◌↔◌, ◌⊎◌, ℕ, true, false, [], Some, None};
ghost use Rattle.x_base.specs.declared.key_name.KeyName.{KeyName as TheKeyName};
ghost use Rattle.x_base.specs.declared.verdict.Verdict.TheVariants.{Accept};
ghost use Rattle.csm_grammar.specs.declared.arrival.Arrival.{Arrival as TheArrival};
ghost use Rattle.csm_grammar.specs.declared.message.Message.TheVariants as message;
ghost use Rattle.csm_grammar.specs.declared.message.Rsi.{Rsi as TheRsi};
ghost use Rattle.csm_grammar.specs.declared.message.Rsm.{Rsm as TheRsm};
ghost use Rattle.csm_grammar.specs.declared.message.Esm.{Esm as TheEsm};
ghost use Rattle.csm_grammar.specs.declared.message.Dsm.{Dsm as TheDsm};
ghost use Rattle.party_state.specs.State.{Party, apply};
ghost use Rattle.role_base.specs.Texts.{is_plain};
ghost use Rattle.role_base.specs.Errors.{is_early};
ghost use Rattle.role_base.specs.Apart.{AreApart};
ghost use Rattle.bank_arrivals.specs.Rsi.{rsi};
ghost use Rattle.bank_arrivals.specs.Rsm.{rsm, rsm_lead};
ghost use Rattle.bank_arrivals.specs.Esm.{error, esm_lead};
ghost use Rattle.bank_arrivals.specs.Dsm.{dsm, dsm_lead};
ghost use Rattle.bank_arrivals.specs.Heard.{HeardResponse, HeardResponseToTwo, HeardEnd, HeardError, HeardErrorOfTwo, HeardCentre, HeardDisconnection};

use csm_grammar::law_arrived;
use party_state::{law_accept, law_drop, law_found, law_put, law_same};

/// The edits of each of these rows are apart.
pub fn law_arrivals_apart()
    ensures rsi { (p : Party) (a : TheArrival) (m : TheRsi) (moment : ℕ) → AreApart (rsi p a m moment).edits }
    ensures rsm { (p : Party) (a : TheArrival) (m : TheRsm) → AreApart (rsm p a m).edits }
    ensures esm { (p : Party) (a : TheArrival) (m : TheEsm) → AreApart (error p a m).edits }
    ensures dsm { (p : Party) (a : TheArrival) (m : TheDsm) → AreApart (dsm p a m).edits }
{
    law_same();
    law_found();
    law_put();
}

/// There is no key to test the code of an arrival under exactly where the arrival is closed by an
/// error detection code, as each request is, or is refused before its code is looked at.
pub fn law_arrival_lead()
    ensures rsi { (a : TheArrival) (m : TheRsi) → a.parsed.message ≡ message.Rsi m → is_plain a.parsed.shut ≡ true }
    ensures rsm { (p : Party) (a : TheArrival) (m : TheRsm) → a.parsed.message ≡ message.Rsm m →
        ((rsm_lead p a m ≡ None) ↔ ((is_plain a.parsed.shut ≡ true) ⊎ (is_early (rsm p a m).verdict ≡ true))) }
    ensures esm { (p : Party) (a : TheArrival) (m : TheEsm) →
        ((esm_lead p a m ≡ None) ↔ ((is_plain a.parsed.shut ≡ true) ⊎ (is_early (error p a m).verdict ≡ true))) }
    ensures dsm { (p : Party) (a : TheArrival) (m : TheDsm) → a.parsed.message ≡ message.Dsm m →
        ((dsm_lead p a m ≡ None) ↔ ((is_plain a.parsed.shut ≡ true) ⊎ (is_early (dsm p a m).verdict ≡ true))) }
{
    law_arrived();
}

/// What an accepted answer says: which key it is about, or which two, that its code is made under
/// that key, or under the exclusive-or of the two, and what becomes of them. An error message that is
/// closed by an error detection code changes nothing.
pub fn law_heard()
    ensures response { (p : Party) (a : TheArrival) (m : TheRsm) → m.idd ≡ None → (rsm p a m).verdict ≡ Accept →
        (HeardResponse p (apply (rsm p a m).edits p) a m ⊎ HeardResponseToTwo p (apply (rsm p a m).edits p) a m) }
    ensures end { (p : Party) (a : TheArrival) (m : TheRsm) (idd : TheKeyName) → m.idd ≡ Some idd → (rsm p a m).verdict ≡ Accept →
        HeardEnd p (apply (rsm p a m).edits p) a m idd }
    ensures error { (p : Party) (a : TheArrival) (m : TheEsm) → is_plain a.parsed.shut ≡ false → (error p a m).verdict ≡ Accept →
        (HeardError p (apply (error p a m).edits p) a m (error p a m) ⊎ (HeardErrorOfTwo p (apply (error p a m).edits p) a m (error p a m) ⊎ HeardCentre p (apply (error p a m).edits p) a m (error p a m))) }
    ensures plain { (p : Party) (a : TheArrival) (m : TheEsm) → is_plain a.parsed.shut ≡ true →
        (((error p a m).edits ≡ []) × ((error p a m).reply ≡ None)) }
    ensures disconnection { (p : Party) (a : TheArrival) (m : TheDsm) → (dsm p a m).verdict ≡ Accept →
        HeardDisconnection p (apply (dsm p a m).edits p) a m (dsm p a m) }
{
    law_accept();
    law_same();
    law_found();
    law_put();
    law_drop();
}
