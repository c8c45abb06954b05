// What is known of the edits that make a difference and of what rows have in common, by calls that do nothing.
ghost use Rattle.std.specs.Prelude.{◌≡◌, ◌↔◌, false, ℕ, List, Some};
ghost use Rattle.x_base.specs.declared.party.Side.{Side as TheSide};
ghost use Rattle.x_base.specs.declared.verdict.Verdict.TheVariants.{Accept};
ghost use Rattle.x_mac.specs.declared.pair.Pair.{Pair as ThePair};
ghost use Rattle.x_gen.specs.declared.generator.Gen.{Gen as TheGen};
ghost use Rattle.x_gen.specs.Gen.{good_draw};
ghost use Rattle.party_tables.specs.declared.link.LinkKey.{LinkKey as TheLinkKey};
ghost use Rattle.party_tables.specs.declared.link.LinkRec.{LinkRec as TheLink};
ghost use Rattle.party_state.specs.declared.edit.Edit.{Edit as TheEdit};
ghost use Rattle.party_state.specs.declared.edit.Edit.TheVariants.{PutExchange};
ghost use Rattle.party_tables.specs.declared.exchange.Exchange.{Exchange as TheExchange};
ghost use Rattle.party_state.specs.State.{Party, apply_edit, apply};
ghost use Rattle.party_state.specs.Verdicts.{Test};
ghost use Rattle.role_base.specs.Beginning.{BeginsFree, AllBeginFree};
ghost use Rattle.role_base.specs.Differing.{differs, always_differs, differing};
ghost use Rattle.role_base.specs.Apart.{AreApart, AreDone, NoneDone};
ghost use Rattle.role_base.specs.Load.{load, load_tests};
ghost use Rattle.role_base.specs.Loading.{CanLoad, Loads};
ghost use Rattle.role_base.specs.Order.{InOrder};
ghost use Rattle.role_base.specs.Sending.{sending};
ghost use Rattle.role_base.specs.Sends.{SendsKey};

use party_state::{law_accept, law_counts, law_drop, law_found, law_put, law_same, law_stands};
use x_gen::law_draws_odd;
use x_seal::law_unwraps;

/// An edit that makes no difference changes nothing. One that changes nothing makes no difference,
/// but for an exchange that is put and a party that begins, which always do. Of edits that are apart
/// those that make none can be left out. An exchange that is put where none stands with its peer does
/// change something.
pub fn law_differing()
    ensures unchanged { (p : Party) (e : TheEdit) → differs p e ≡ false → apply_edit e p ≡ p }
    ensures needed { (p : Party) (e : TheEdit) → always_differs e ≡ false → apply_edit e p ≡ p → differs p e ≡ false }
    ensures begun { (p : Party) (e : TheExchange) → BeginsFree p (PutExchange e) → apply_edit (PutExchange e) p ≡ p → ⊥ }
    ensures left_out { (p : Party) (es : List TheEdit) → AreApart es → apply (differing p es) p ≡ apply es p }
{
    law_same();
    law_found();
    law_put();
    law_drop();
    law_stands();
    law_counts();
}

/// Of edits that are apart those that make a difference to one party are done, all of them, at each
/// party behind them, so that they change nothing there. Where an exchange is put only with a peer
/// with whom none stands, and no party begins, none of them is done at the party before.
pub fn law_settling()
    ensures done { (p q : Party) (es : List TheEdit) → AreApart es → AreDone (apply (differing p es) q) (differing p es) }
    ensures undone { (p : Party) (es : List TheEdit) → AllBeginFree p es → NoneDone p (differing p es) }
    ensures together { (p : Party) (es : List TheEdit) → AreDone p es → apply es p ≡ p }
{
    law_differing();
}

/// A key-encrypting key is loaded exactly where it can be; its tests are made in the order; and what
/// stands then.
pub fn law_loads()
    ensures exactly { (p : Party) (peer label : List ℕ) (side : TheSide) (pair : ThePair) → ((load p peer label side pair).verdict ≡ Accept) ↔ CanLoad p peer label side pair }
    ensures order { (p : Party) (key : TheLinkKey) (pair : ThePair) → InOrder (load_tests p key pair) }
    ensures leaves { (p : Party) (peer label : List ℕ) (side : TheSide) (pair : ThePair) →
        Loads p (apply (load p peer label side pair).edits p) (load p peer label side pair) (record { peer = peer; label = label; side = side }) pair }
{
    law_accept();
    law_same();
    law_found();
    law_put();
}

/// What is sent with a data key that is drawn, and what is kept.
pub fn law_sends()
    ensures { (p : Party) (front : List Test) (l : TheLink) (moment : ℕ) (d : ℕ × TheGen) → good_draw p.generator moment ≡ Some d →
        SendsKey p (apply (sending p front l moment).edits p) (sending p front l moment) l moment }
{
    law_same();
    law_found();
    law_put();
    law_drop();
    law_unwraps();
    law_draws_odd();
}
