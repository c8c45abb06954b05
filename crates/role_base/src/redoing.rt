// Whether edits are done: done once more, they change nothing.
ghost use Rattle.std.specs.Prelude.{◌≡◌, ◌↔◌, false, IsTrue, Some};
ghost use Rattle.party_state.specs.Ranges.{HasNoBegin, IsNoBegin};
ghost use Rattle.party_state.specs.State.{apply_edit, exchange_with};
ghost use Rattle.party_tables.specs.Keys.{exchange_key};
ghost use Rattle.role_base.specs.Apart.{AreDone};
ghost use Rattle.role_base.specs.Redoing.{has_exchange, same_kind};

use crate::differing::differs;
use crate::laws::law_differing;
use party_state::{Change, Edit, Exchange, Kind, State, law_found, law_put, law_stands};

fn same_kind(one: &Kind, other: &Kind) -> bool
    ensures { result ≡ same_kind one.now other.now }
{
    *one == *other
}

/// Whether that exchange stands with these contents.
fn has_exchange(state: &State, exchange: &Exchange) -> bool
    ensures { result ≡ has_exchange (exchange_with (exchange_key exchange.now) state.now) exchange.now }
{
    match state.exchange(&exchange.peer) {
        Some(old) => same_kind(&old.kind, &exchange.kind) && old.text == exchange.text,
        None => false,
    }
}

/// Whether the edit, done once more, changes nothing. Takes no memory.
#[tactic(auto, using(crate::proofs::Redone::put_exactly, crate::proofs::Redone::other_exactly))]
fn is_done(state: &State, edit: &Edit) -> bool
    requires { IsNoBegin edit.now }
    ensures { IsTrue result ↔ (apply_edit edit.now state.now ≡ state.now) }
{
    law_differing();
    law_found();
    law_put();
    law_stands();
    match edit {
        Edit::PutExchange(exchange) => has_exchange(state, exchange),
        _ => !differs(state, edit),
    }
}

/// Whether each edit of a change, done once more, changes nothing. Takes no memory.
#[tactic(auto, using(crate::proofs::Redone::none_yet))]
pub fn are_done(state: &State, change: &Change) -> bool
    requires { HasNoBegin change.now }
    ensures { IsTrue result ↔ AreDone state.now change.now }
{
    for i in 0..change.len() {
        match change.edit_at(i) {
            Some(edit) => {
                if !is_done(state, edit) {
                    return false;
                }
            }
            None => return false,
        }
    }
    true
}
