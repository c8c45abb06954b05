// What is known of two data keys that are sent in one message, by a call that does nothing.
ghost use Rattle.std.specs.Prelude.{◌≡◌, ℕ, List, Some};
ghost use Rattle.x_base.specs.declared.party.Side.TheVariants.{Sends};
ghost use Rattle.x_base.specs.declared.verdict.Verdict.TheVariants.{Accept};
ghost use Rattle.csm_grammar.specs.declared.arrival.Arrival.{Arrival as TheArrival};
ghost use Rattle.csm_grammar.specs.declared.message.Rsi.{Rsi as TheRsi};
ghost use Rattle.csm_grammar.specs.declared.message.Service.TheVariants as services;
ghost use Rattle.party_tables.specs.declared.link.LinkRec.{LinkRec as TheLink};
ghost use Rattle.party_state.specs.State.{Party, apply, first_link};
ghost use Rattle.party_state.specs.Verdicts.{Test};
ghost use Rattle.bank_arrivals.specs.declared.draws.TwinsDrawn.{TwinsDrawn as TheTwins};
ghost use Rattle.bank_arrivals.specs.SendingTwins.{twins_drawn, twins_sending};
ghost use Rattle.bank_arrivals.specs.Rsi.{rsi};
ghost use Rattle.bank_arrivals.specs.SendsTwins.{SendsTwins};

use party_state::{law_accept, law_drop, law_found, law_put, law_same};
use x_gen::law_draws_odd;
use x_seal::law_unwraps;

/// What is sent with two data keys that are drawn, and what is kept; an accepted request for two is
/// answered by them.
pub fn law_sends_twins()
    ensures sends { (p : Party) (front : List Test) (l : TheLink) (moment : ℕ) (d : TheTwins) → twins_drawn p.generator moment ≡ Some d →
        SendsTwins p (apply (twins_sending p front l moment).edits p) (twins_sending p front l moment) l moment }
    ensures asked { (p : Party) (a : TheArrival) (m : TheRsi) (moment : ℕ) (l : TheLink) → m.service ≡ services.KdKd → first_link m.originator Sends p ≡ Some l → (rsi p a m moment).verdict ≡ Accept →
        SendsTwins p (apply (rsi p a m moment).edits p) (rsi p a m moment) l moment }
{
    law_accept();
    law_same();
    law_found();
    law_put();
    law_drop();
    law_unwraps();
    law_draws_odd();
}
