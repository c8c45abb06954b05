// What a translation centre serves, how it refuses everything else, and the order of its tests, by calls that do nothing.
ghost use Rattle.std.specs.Prelude.{◌≡◌, ◌↔◌, Bool};
ghost use Rattle.x_base.specs.declared.verdict.Verdict.TheVariants.{Accept, WrongClass};
ghost use Rattle.csm_grammar.specs.declared.arrival.Arrival.{Arrival as TheArrival};
ghost use Rattle.csm_grammar.specs.declared.message.Rfs.{Rfs as TheRfs};
ghost use Rattle.party_state.specs.declared.command.Command.{Command as TheCommand};
ghost use Rattle.party_state.specs.declared.command.Input.{Input as TheInput};
ghost use Rattle.party_state.specs.declared.command.Input.TheVariants.{Arrived, Ordered};
ghost use Rattle.party_tables.specs.declared.link.LinkRec.{LinkRec as TheLink};
ghost use Rattle.party_state.specs.State.{Party};
ghost use Rattle.role_base.specs.Order.{InOrder};
ghost use Rattle.role_base.specs.Serving.{IsOwnLoad, LoadsOwn};
ghost use Rattle.translation_role.specs.Rows.{translation_row};
ghost use Rattle.translation_role.specs.Serves.{IsServed, Refuses};
ghost use Rattle.translation_role.specs.Service.{rfs_front, rfs_tests};

use role_base::{law_commands, law_unserved};

/// A translation centre accepts requests for service and loading under its own label, and nothing
/// else; the rest is refused with the number of its class.
pub fn law_serves()
    ensures only { (p : Party) (i : TheInput) → (translation_row p i).verdict ≡ Accept → IsServed i }
    ensures loads { (p : Party) (c : TheCommand) → ((translation_row p (Ordered c)).verdict ≡ Accept) ↔ LoadsOwn p c }
    ensures commands { (p : Party) (c : TheCommand) → (IsOwnLoad c → ⊥) → (translation_row p (Ordered c)).verdict ≡ WrongClass }
    ensures arrivals { (p : Party) (a : TheArrival) → Refuses p a.parsed.message (translation_row p (Arrived a)).verdict }
{
    law_commands();
    law_unserved();
}

/// The tests of a request for service are made in the order.
pub fn law_order()
    ensures rfs { (p : Party) (a : TheArrival) (m : TheRfs) (l b : TheLink) → InOrder (rfs_tests p a m l b) }
    ensures rfs_front { (p : Party) (m : TheRfs) (linked : Bool) → InOrder (rfs_front p m linked) }
{}
