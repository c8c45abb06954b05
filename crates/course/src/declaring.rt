// What the lines of a scenario declare: its parties, and the links that are loaded at them.
ghost use Rattle.std.specs.Prelude.{◌≡◌};
ghost use Rattle.scenario.specs.Rules.{is_party_or_link};
ghost use Rattle.course.specs.Starts.{link_of, load_at};
ghost use Rattle.course.specs.Parties.{new_party};

use party_state::LinkRec;
use role_base::odd_pair;
use scenario::Line;
use x_base::{Ident, Label, Role, Side};
use x_gen::Gen;
use x_mac::Pair;

/// A party that a line declares.
#[derive(Clone, Copy)]
pub struct NewParty {
    pub own: Ident,
    pub role: Role,
    pub generator: Gen,
}

/// The party that a line declares.
pub fn new_party(line: &Line) -> Option<NewParty>
    ensures { result ≡ new_party line.now }
{
    match line {
        Line::Party {
            name,
            role,
            pair,
            v,
        } => Some(NewParty {
            own: *name,
            role: *role,
            generator: Gen { key: *pair, v: *v },
        }),
        _ => None,
    }
}

/// A link with no count used.
fn fresh_link(peer: &Ident, label: &Label, side: Side, pair: &Pair) -> LinkRec
    ensures { result ≡ link_of peer.now label.now side pair.now }
{
    LinkRec {
        peer: *peer,
        label: *label,
        side,
        pair: odd_pair(*pair),
        next: 1,
        ready: true,
    }
}

/// The link that a line loads at a party.
pub fn load_at(own: &Ident, line: &Line) -> Option<LinkRec>
    ensures { result ≡ load_at own.now line.now }
{
    match line {
        Line::Link {
            origin,
            recipient,
            label,
            pair,
        } => {
            if *own == *origin {
                return Some(fresh_link(recipient, label, Side::Sends, pair));
            }
            if *own == *recipient {
                return Some(fresh_link(origin, label, Side::Takes, pair));
            }
            None
        }
        _ => None,
    }
}

/// Whether a line declares a party or loads a link. Behind one that doesn't, none does.
pub fn is_head(line: &Line) -> bool
    ensures { result ≡ is_party_or_link line.now }
{
    matches!(line, Line::Party { .. } | Line::Link { .. })
}
