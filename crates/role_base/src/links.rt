// Links that stand, and the one behind a count.
ghost use Rattle.std.specs.Prelude.{◌≡◌, ◌+◌, IfSome};
ghost use Rattle.x_base.specs.Count.{IsCount};
ghost use Rattle.party_state.specs.State as party;
ghost use Rattle.role_base.specs.Standing.{LinkStands};

use party_state::{LinkRec, State, law_first_link, law_found};
use x_base::{Count, Ident, Label, Side};

/// The first link with that peer on that side that is ready and isn't one with a centre.
#[tactic(auto, using(crate::proofs::Found::first_stands))]
pub fn first_link(state: &State, peer: &Ident, side: Side) -> Option<LinkRec>
    ensures link { result ≡ party.first_link peer.now side state.now }
    ensures stands { IfSome result (LinkStands state.now) }
{
    // Tells that the links that stand are in their ranges.
    state.law_party();
    law_first_link();
    state.first_link(peer, side).copied()
}

/// The link with that peer, label and side.
#[tactic(auto, using(crate::proofs::Found::link_stands))]
pub fn link_with(state: &State, peer: &Ident, label: &Label, side: Side) -> Option<LinkRec>
    ensures link { result ≡ party.link_with (record { peer = peer.now; label = label.now; side = side }) state.now }
    ensures stands { IfSome result (LinkStands state.now) }
{
    // Tells that the links that stand are in their ranges.
    state.law_party();
    law_found();
    state.link(peer, label, side).copied()
}

/// The link behind a count: the next one is one more.
pub fn link_behind(link: &LinkRec, count: Count) -> LinkRec
    ensures next { result ≡ record link.now { next = count + 1 } }
    ensures count { IsCount count }
{
    LinkRec {
        next: count.value() + 1,
        ..*link
    }
}
