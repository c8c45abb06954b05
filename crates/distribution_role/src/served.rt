// What a distribution centre serves, how it refuses everything else, and the order of its tests, by calls that do nothing.
ghost use Rattle.std.specs.Prelude.{◌≡◌, ◌↔◌, ◌++◌, ◌∷◌, [], Bool, false, ℕ, List};
ghost use Rattle.x_base.specs.declared.verdict.Verdict.TheVariants.{Accept, WeakDraws, WrongClass};
ghost use Rattle.csm_grammar.specs.declared.arrival.Arrival.{Arrival as TheArrival};
ghost use Rattle.csm_grammar.specs.declared.message.Rsi.{Rsi as TheRsi};
ghost use Rattle.csm_grammar.specs.declared.message.Ers.{Ers as TheErs};
ghost use Rattle.party_tables.specs.declared.answer.Answer.{Answer as TheAnswer};
ghost use Rattle.party_state.specs.declared.command.Command.{Command as TheCommand};
ghost use Rattle.party_state.specs.declared.command.Input.{Input as TheInput};
ghost use Rattle.party_state.specs.declared.command.Input.TheVariants.{Arrived, Ordered};
ghost use Rattle.party_tables.specs.declared.link.LinkRec.{LinkRec as TheLink};
ghost use Rattle.party_state.specs.State.{Party};
ghost use Rattle.role_base.specs.Order.{InOrder};
ghost use Rattle.role_base.specs.Centres.{request_front};
ghost use Rattle.role_base.specs.Serving.{IsOwnLoad, LoadsOwn};
ghost use Rattle.distribution_role.specs.Requests.{rsi_front, rsi_tests};
ghost use Rattle.distribution_role.specs.Recovery.{ers_front, ers_tests};
ghost use Rattle.distribution_role.specs.Rows.{distribution_row};
ghost use Rattle.distribution_role.specs.Serves.{IsServed, Refuses};

use role_base::{law_commands, law_unserved};

/// A distribution centre accepts requests, also those that come again, and loading under its own
/// label, and nothing else; the rest is refused with the number of its class.
pub fn law_serves()
    ensures only { (p : Party) (i : TheInput) (moment : ℕ) → (distribution_row p i moment).verdict ≡ Accept → IsServed i }
    ensures loads { (p : Party) (c : TheCommand) (moment : ℕ) → ((distribution_row p (Ordered c) moment).verdict ≡ Accept) ↔ LoadsOwn p c }
    ensures commands { (p : Party) (c : TheCommand) (moment : ℕ) → (IsOwnLoad c → ⊥) → (distribution_row p (Ordered c) moment).verdict ≡ WrongClass }
    ensures arrivals { (p : Party) (a : TheArrival) (moment : ℕ) → Refuses p a.parsed.message (distribution_row p (Arrived a) moment).verdict }
{
    law_commands();
    law_unserved();
}

/// The tests of requests are made in the order.
pub fn law_order()
    ensures rsi { (p : Party) (a : TheArrival) (m : TheRsi) (u : List ℕ) (l b : TheLink) (drawn : Bool) → InOrder (rsi_tests p a m u l b ++ (drawn, WeakDraws) ∷ []) }
    ensures rsi_front { (p : Party) (m : TheRsi) (u : List ℕ) → InOrder (rsi_front p m u false) }
    ensures alone { (p : Party) (receiver originator : List ℕ) → InOrder (request_front p receiver originator false) }
    ensures ers { (p : Party) (a : TheArrival) (m : TheErs) (t : TheAnswer) (l b : TheLink) (drawn : Bool) → InOrder (ers_tests p a m t l b ++ (drawn, WeakDraws) ∷ []) }
    ensures ers_front { (p : Party) (m : TheErs) (stands linked : Bool) → InOrder (ers_front p m stands linked) }
{}
