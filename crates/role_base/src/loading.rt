// Loading a key-encrypting key that both ends were given.
ghost use Rattle.std.specs.Prelude.{◌≡◌};
ghost use Rattle.role_base.specs.Deciding.{Decides};
ghost use Rattle.role_base.specs.Load.{odd_pair, load_tests, load};

use crate::conditions::has_link_room;
use crate::decisions::{accept, refusal};
use crate::edits::list_of;
use crate::verdicts::{is_accept, verdict_of};
use party_state::{Decision, Edit, LinkRec, State, law_accept};
use std::alloc::Global;
use x_base::{Ident, Label, NoMemory, Side, Verdict};
use x_gen::with_odd_parity;
use x_mac::Pair;

/// Both halves with odd parity.
pub fn odd_pair(pair: Pair) -> Pair
    ensures { result ≡ odd_pair pair }
{
    Pair {
        left: with_odd_parity(pair.left),
        right: with_odd_parity(pair.right),
    }
}

fn load_tests(
    state: &State,
    peer: &Ident,
    label: &Label,
    side: Side,
    pair: Pair,
) -> [(bool, Verdict); 4]
    ensures { result ≡ load_tests state.now (record { peer = peer.now; label = label.now; side = side }) pair }
{
    [
        (state.link(peer, label, side).is_none(), Verdict::LabelTaken),
        (!state.has_pair(odd_pair(pair)), Verdict::SameKey),
        (!state.aliases(peer), Verdict::Alias),
        (has_link_room(state, peer, label, side), Verdict::LinksFull),
    ]
}

/// What is decided where a key-encrypting key is loaded.
#[tactic(auto, using(crate::proofs::Kept::is_refused, crate::proofs::ByRow::by_accepted))]
pub fn load(
    alloc: Global,
    state: &State,
    peer: &Ident,
    label: &Label,
    side: Side,
    pair: Pair,
) -> Result<Decision, NoMemory>
    ensures { Decides state.now (load state.now peer.now label.now side pair) result }
{
    // Tells what an accepted verdict says of the tests.
    law_accept();
    let verdict = verdict_of(&load_tests(state, peer, label, side, pair));
    if !is_accept(&verdict) {
        return Ok(refusal(verdict));
    }
    let link = LinkRec {
        peer: *peer,
        label: *label,
        side,
        pair: odd_pair(pair),
        next: 1,
        ready: true,
    };
    accept(alloc, state, list_of(alloc, [Edit::PutLink(link)])?, None)
}
