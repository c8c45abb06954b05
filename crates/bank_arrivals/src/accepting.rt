// When arrivals are accepted at a bank, and what they leave, by calls that do nothing.
ghost use Rattle.std.specs.Prelude.{◌≡◌, ◌≢◌, ◌↔◌, ◌⊎◌, ◌++◌, ◌∷◌, [], ℕ, true, false, Option, Some, None};
ghost use Rattle.x_base.specs.declared.key_name.KeyName.{KeyName as TheKeyName};
ghost use Rattle.x_base.specs.declared.party.Side.TheVariants.{Sends};
ghost use Rattle.x_base.specs.declared.verdict.Verdict.TheVariants.{Accept, BadMac};
ghost use Rattle.x_gen.specs.declared.generator.Gen.{Gen as TheGen};
ghost use Rattle.csm_grammar.specs.declared.arrival.Arrival.{Arrival as TheArrival};
ghost use Rattle.csm_grammar.specs.declared.message.Rsi.{Rsi as TheRsi};
ghost use Rattle.csm_grammar.specs.declared.message.Service.TheVariants as service;
ghost use Rattle.csm_grammar.specs.declared.message.Rsm.{Rsm as TheRsm};
ghost use Rattle.csm_grammar.specs.declared.message.Esm.{Esm as TheEsm};
ghost use Rattle.csm_grammar.specs.declared.message.Dsm.{Dsm as TheDsm};
ghost use Rattle.party_tables.specs.declared.key.KeyRec.{KeyRec as TheRecord};
ghost use Rattle.party_tables.specs.declared.key.KeyStatus.TheVariants.{Ended};
ghost use Rattle.party_tables.specs.declared.link.LinkRec.{LinkRec as TheLink};
ghost use Rattle.party_state.specs.State.{Party, apply, first_link};
ghost use Rattle.role_base.specs.declared.exchanges.Sent.{Sent as TheSent};
ghost use Rattle.party_state.specs.Verdicts.{is_accept};
ghost use Rattle.role_base.specs.Beginning.{AllBeginFree};
ghost use Rattle.role_base.specs.Order.{InOrder};
ghost use Rattle.role_base.specs.Sending.{sending_tests};
ghost use Rattle.role_base.specs.Sends.{SendsKey};
ghost use Rattle.role_base.specs.Texts.{is_plain, is_verified};
ghost use Rattle.bank_arrivals.specs.declared.error_message.ErrorSubject.{ErrorSubject as TheErrorSubject};
ghost use Rattle.bank_arrivals.specs.Rsi.{rsi, rsi_tests};
ghost use Rattle.bank_arrivals.specs.declared.draws.TwinsDrawn.{TwinsDrawn as TheTwinsDrawn};
ghost use Rattle.bank_arrivals.specs.SendingTwins.{twins_tests};
ghost use Rattle.bank_arrivals.specs.Rsm.{rsm, rsm_front, twins_front, end_front};
ghost use Rattle.bank_arrivals.specs.Esm.{error, esm_front, plain_tests};
ghost use Rattle.bank_arrivals.specs.Dsm.{dsm, dsm_front};
ghost use Rattle.bank_arrivals.specs.Heard.{HasKey};
ghost use Rattle.bank_arrivals.specs.Accepting.{CanServe, CanServeTwo, Confirms, ConfirmsTwo, ConfirmsEnd, Complains, ComplainsOfTwo, ComplainsAsCentre, ComplainsPlainly, Disconnects};
ghost use Rattle.bank_arrivals.specs.Leaving.{LeavesExchange};

use party_state::{law_accept, law_drop, law_found, law_put, law_same};
use role_base::law_sends;

/// A response, an error message or a disconnection is accepted exactly where it is for this party,
/// the key or the two keys or the exchange that it is about stand, and its code is right. A response
/// writes nothing.
pub fn law_accepts()
    ensures response { (p : Party) (a : TheArrival) (m : TheRsm) → m.idd ≡ None → ((rsm p a m).verdict ≡ Accept) ↔ (Confirms p a m ⊎ ConfirmsTwo p a m) }
    ensures end { (p : Party) (a : TheArrival) (m : TheRsm) (idd : TheKeyName) → m.idd ≡ Some idd → ((rsm p a m).verdict ≡ Accept) ↔ ConfirmsEnd p a m idd }
    ensures error { (p : Party) (a : TheArrival) (m : TheEsm) → is_plain a.parsed.shut ≡ false → ((error p a m).verdict ≡ Accept) ↔ (Complains p a m ⊎ (ComplainsOfTwo p a m ⊎ ComplainsAsCentre p a m)) }
    ensures plain { (p : Party) (a : TheArrival) (m : TheEsm) → is_plain a.parsed.shut ≡ true → ((error p a m).verdict ≡ Accept) ↔ ComplainsPlainly p a m }
    ensures disconnection { (p : Party) (a : TheArrival) (m : TheDsm) → ((dsm p a m).verdict ≡ Accept) ↔ Disconnects p a m }
    ensures silent { (p : Party) (a : TheArrival) (m : TheRsm) → ((rsm p a m).reply ≡ None) × ((rsm p a m).answer ≡ None) }
{
    law_accept();
    law_same();
    law_found();
    law_put();
    law_drop();
}

/// A request is accepted exactly where a data key can be drawn and sent under the first link, or two
/// where it asks for two. One that asks for a key is then answered by that key.
pub fn law_serves()
    ensures exactly { (p : Party) (a : TheArrival) (m : TheRsi) (moment : ℕ) → ((rsi p a m moment).verdict ≡ Accept) ↔ (CanServe p a m moment ⊎ CanServeTwo p a m moment) }
    ensures sent { (p : Party) (a : TheArrival) (m : TheRsi) (moment : ℕ) (l : TheLink) → m.service ≡ service.Kd → first_link m.originator Sends p ≡ Some l → (rsi p a m moment).verdict ≡ Accept →
        SendsKey p (apply (rsi p a m moment).edits p) (rsi p a m moment) l moment }
{
    law_accept();
    law_sends();
}

/// An accepted disconnection of a key that hadn't ended takes the exchange with its originator away
/// exactly where that names the key, with the new key-encrypting key that went with it; of two keys
/// that were sent in one message the other ends too.
pub fn law_left()
    ensures { (p : Party) (a : TheArrival) (m : TheDsm) (k : TheRecord) → (dsm p a m).verdict ≡ Accept → HasKey p m.originator m.idd k → k.status ≢ Ended →
        LeavesExchange p (apply (dsm p a m).edits p) m }
{
    law_accept();
    law_same();
    law_found();
    law_put();
    law_drop();
}

/// The tests of these arrivals are made in the order.
pub fn law_order()
    ensures rsi { (p : Party) (a : TheArrival) (m : TheRsi) (found : Option TheLink) (l : TheLink) (drawn : Option (ℕ × TheGen)) → InOrder (rsi_tests p a m found ++ sending_tests p l drawn) }
    ensures rsi_for_two { (p : Party) (a : TheArrival) (m : TheRsi) (found : Option TheLink) (l : TheLink) (drawn : Option TheTwinsDrawn) → InOrder (rsi_tests p a m found ++ twins_tests p l drawn) }
    ensures rsm { (p : Party) (a : TheArrival) (m : TheRsm) (found : Option TheSent) (value : ℕ) → InOrder (rsm_front p m found ++ (is_verified a value, BadMac) ∷ []) }
    ensures rsm_to_two { (p : Party) (a : TheArrival) (m : TheRsm) (value : ℕ) → InOrder (twins_front p m ++ (is_verified a value, BadMac) ∷ []) }
    ensures end { (p : Party) (a : TheArrival) (m : TheRsm) (name : TheKeyName) (found : Option TheRecord) (value : ℕ) → InOrder (end_front p m name found ++ (is_verified a value, BadMac) ∷ []) }
    ensures esm { (p : Party) (a : TheArrival) (m : TheEsm) (found : Option TheErrorSubject) (value : ℕ) → InOrder (esm_front p m found ++ (is_verified a value, BadMac) ∷ []) }
    ensures plain { (p : Party) (a : TheArrival) (m : TheEsm) → InOrder (plain_tests p a m) }
    ensures dsm { (p : Party) (a : TheArrival) (m : TheDsm) (value : ℕ) → InOrder (dsm_front p m true ++ (is_verified a value, BadMac) ∷ []) }
{}

/// These arrivals begin an exchange, where they are accepted, only with a peer with whom none stands.
pub fn law_begins()
    ensures rsi { (p : Party) (a : TheArrival) (m : TheRsi) (moment : ℕ) → is_accept (rsi p a m moment).verdict ≡ true → AllBeginFree p (rsi p a m moment).edits }
    ensures rsm { (p : Party) (a : TheArrival) (m : TheRsm) → AllBeginFree p (rsm p a m).edits }
    ensures esm { (p : Party) (a : TheArrival) (m : TheEsm) → AllBeginFree p (error p a m).edits }
    ensures dsm { (p : Party) (a : TheArrival) (m : TheDsm) → AllBeginFree p (dsm p a m).edits }
{
    law_accept();
}
