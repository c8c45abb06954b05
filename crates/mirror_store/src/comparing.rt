// Two states of a party are compared.
ghost use Rattle.std.specs.Prelude.{◌≡◌, option_map, slice_get};
ghost use Rattle.mirror_store.specs.Comparing.{IsComparison, is_below, is_lacking, lacks};

use party_state::{LinkRec, State};

/// What two states are to one another.
#[derive(Clone, Copy)]
pub enum Comparison {
    /// They are equal.
    Same,
    /// The first has gone on further.
    FirstAhead,
    /// The second has gone on further.
    SecondAhead,
    /// They differ, and neither has gone on further.
    Neither,
}

/// Whether the link is lacking, or has a next count below that of the other.
fn is_below(own: Option<&LinkRec>, link: &LinkRec) -> bool
    ensures { result ≡ is_below (option_map (λ l. l.now) own.entry) link.now }
{
    match own {
        Some(own) => own.next < link.next,
        None => true,
    }
}

/// Whether link `i` of the other state is lacking in the state, or has a higher next count there.
fn lacks_at(state: &State, other: &State, i: usize) -> bool
    ensures { result ≡ is_lacking state.now (slice_get other.now.links i) }
{
    match other.link_at(i) {
        Some(link) => is_below(state.link(&link.peer, &link.label, link.side), link),
        None => false,
    }
}

/// Whether a link of the other state is lacking in the state, or has a higher next count there.
#[tactic(auto, using(crate::proofs::Compared::lacking_found, crate::proofs::Compared::lacking_none))]
fn lacks(state: &State, other: &State) -> bool
    ensures { result ≡ lacks state.now other.now }
{
    for i in 0..other.link_count() {
        if lacks_at(state, other, i) {
            return true;
        }
    }
    false
}

/// Says whether two states are equal, and, where they differ, which has gone on further: the one that lacks no link of the
/// other and has no lower next count, where the other lacks a link or has a lower next count.
pub fn compare(first: &State, second: &State) -> Comparison
    ensures { IsComparison first.now second.now result }
{
    if first.same(second) {
        return Comparison::Same;
    }
    let ahead = lacks(second, first);
    let behind = lacks(first, second);
    if ahead {
        if behind {
            Comparison::Neither
        } else {
            Comparison::FirstAhead
        }
    } else if behind {
        Comparison::SecondAhead
    } else {
        Comparison::Neither
    }
}
