// What is known of the rows of keys that come, by calls that do nothing.
ghost use Rattle.std.specs.Prelude.{◌≡◌, ◌↔◌, ◌⊎◌, ℕ, true, List, Option, Some, None};
ghost use Rattle.x_base.specs.declared.verdict.Verdict.TheVariants.{Accept};
ghost use Rattle.csm_grammar.specs.declared.arrival.Arrival.{Arrival as TheArrival};
ghost use Rattle.csm_grammar.specs.declared.message.Ksm.{Ksm as TheKsm};
ghost use Rattle.csm_grammar.specs.declared.message.KsmBody.{KsmBody as TheKsmBody};
ghost use Rattle.csm_grammar.specs.declared.message.KsmBody.TheVariants as body;
ghost use Rattle.csm_grammar.specs.declared.message.NewKk.{NewKk as TheNewKk};
ghost use Rattle.csm_grammar.specs.declared.message.Rtr.{Rtr as TheRtr};
ghost use Rattle.csm_grammar.specs.declared.message.Message.TheVariants as message;
ghost use Rattle.party_state.specs.declared.command.Input.TheVariants.{Arrived};
ghost use Rattle.party_tables.specs.declared.link.LinkRec.{LinkRec as TheLink};
ghost use Rattle.party_tables.specs.Keys.{link_key, same_link};
ghost use Rattle.party_state.specs.State.{Party, apply};
ghost use Rattle.party_tables.specs.Tables.{Distinct};
ghost use Rattle.party_state.specs.Verdicts.{is_accept};
ghost use Rattle.role_base.specs.Texts.{is_plain};
ghost use Rattle.role_base.specs.Beginning.{AllBeginFree};
ghost use Rattle.role_base.specs.Apart.{AreApart};
ghost use Rattle.role_base.specs.Deciding.{decision_of};
ghost use Rattle.role_base.specs.Errors.{is_early};
ghost use Rattle.role_base.specs.Order.{InOrder};
ghost use Rattle.bank_keys.specs.declared.waits.KeyAtCentre.{KeyAtCentre as TheKeyAtCentre};
ghost use Rattle.bank_keys.specs.Ksm.{body_new, body_front, body_tests, key_arrives, key_lead};
ghost use Rattle.bank_keys.specs.Rtr.{brought_front, brought_tests, translated_front, translated_tests, rtr, rtr_lead};
ghost use Rattle.bank_keys.specs.Refusing.{AnswersRefused, AnswersNoOther};
ghost use Rattle.bank_keys.specs.Taking.{TakesKeys, TakesNew, TakesTwo};
ghost use Rattle.bank_keys.specs.Passing.{PassesKeys};

use csm_grammar::law_arrived;
use party_state::{law_accept, law_counts, law_found, law_put, law_same};

/// The edits of an accepted key service message, at a party that has each link once, are apart, and
/// so are those of an accepted answer of a centre.
pub fn law_keys_apart()
    ensures ksm { (p : Party) (a : TheArrival) (m : TheKsm) → Distinct link_key same_link p.links → is_accept (key_arrives p a m).verdict ≡ true → AreApart (key_arrives p a m).edits }
    ensures rtr { (p : Party) (a : TheArrival) (m : TheRtr) → is_accept (rtr p a m).verdict ≡ true → AreApart (rtr p a m).edits }
{
    law_accept();
    law_same();
    law_found();
    law_put();
}

/// There is no key to test the code of an arrival under exactly where the arrival is closed by an
/// error detection code, or is refused before its code is looked at.
pub fn law_key_lead()
    ensures ksm { (p : Party) (a : TheArrival) (m : TheKsm) → a.parsed.message ≡ message.Ksm m →
        ((key_lead p a m ≡ None) ↔ ((is_plain a.parsed.shut ≡ true) ⊎ (is_early (key_arrives p a m).verdict ≡ true))) }
    ensures rtr { (p : Party) (a : TheArrival) (m : TheRtr) → a.parsed.message ≡ message.Rtr m →
        ((rtr_lead p a m ≡ None) ↔ ((is_plain a.parsed.shut ≡ true) ⊎ (is_early (rtr p a m).verdict ≡ true))) }
{
    law_arrived();
}

/// A key that a key service message brings, from a partner or a centre, alone, with a new
/// key-encrypting key or with a second data key, is accepted exactly where it can be taken.
pub fn law_taking()
    ensures { (p : Party) (a : TheArrival) (m : TheKsm) → a.parsed.message ≡ message.Ksm m → TakesKeys p (Arrived a) (decision_of p (key_arrives p a m)) }
{
    law_accept();
    law_counts();
    law_same();
    law_found();
    law_put();
}

/// The new key-encrypting key of an accepted key service message is ready for taking.
pub fn law_taken()
    ensures { (p : Party) (a : TheArrival) (m : TheKsm) (new : List ℕ × TheNewKk) → body_new m.body ≡ Some new → (key_arrives p a m).verdict ≡ Accept →
        TakesNew p (apply (key_arrives p a m).edits p) m new }
{
    law_accept();
    law_same();
    law_found();
    law_put();
}

/// Two data keys of an accepted key service message are held, each with its value and name; the
/// message's code is made under the exclusive-or of the two; the link in use expects the count behind
/// both.
pub fn law_both_taken()
    ensures { (p : Party) (a : TheArrival) (m : TheKsm) (idk2 : Option (List ℕ)) (first second ctp : ℕ) → m.body ≡ body.Twin idk2 first second ctp → (key_arrives p a m).verdict ≡ Accept →
        TakesTwo p (apply (key_arrives p a m).edits p) a m (key_arrives p a m) idk2 first second ctp }
{
    law_accept();
    law_same();
    law_found();
    law_put();
}

/// A centre's answer is accepted exactly where its key can go on.
pub fn law_passing()
    ensures { (p : Party) (a : TheArrival) (m : TheRtr) → a.parsed.message ≡ message.Rtr m → PassesKeys p (Arrived a) (decision_of p (rtr p a m)) }
{
    law_accept();
    law_counts();
}

/// A key service message that is refused for its count, a label, a pair or want of room is answered by
/// an error message that names the count, closed under the key that came, or under the exclusive-or
/// of two. No other refusal is answered.
pub fn law_refused()
    ensures answered { AnswersRefused }
    ensures others { AnswersNoOther }
{
    law_found();
}

/// The tests of keys that come are made in the order.
pub fn law_order()
    ensures ksm { (p : Party) (a : TheArrival) (m : TheKsm) (b : TheKsmBody) (l : TheLink) → InOrder (body_tests p a m b l) }
    ensures ksm_front { (p : Party) (m : TheKsm) (b : TheKsmBody) → InOrder (body_front p m b None) }
    ensures brought { (p : Party) (a : TheArrival) (m : TheRtr) (k : ℕ × ℕ) (l : TheLink) → InOrder (brought_tests p a m k l) }
    ensures brought_front { (p : Party) (m : TheRtr) → InOrder (brought_front p m None) }
    ensures translated { (p : Party) (a : TheArrival) (m : TheRtr) (t : TheKeyAtCentre) → InOrder (translated_tests p a m t) }
    ensures translated_front { (p : Party) (m : TheRtr) → InOrder (translated_front p m None) }
{}

/// A key that comes begins an exchange, where it is accepted, only with a peer with whom none stands.
pub fn law_begins()
    ensures ksm { (p : Party) (a : TheArrival) (m : TheKsm) → AllBeginFree p (key_arrives p a m).edits }
    ensures rtr { (p : Party) (a : TheArrival) (m : TheRtr) → is_accept (rtr p a m).verdict ≡ true → AllBeginFree p (rtr p a m).edits }
{
    law_accept();
}
