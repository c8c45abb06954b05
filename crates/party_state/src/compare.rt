// Comparisons by which rows are looked for.
ghost use Rattle.std.specs.Prelude.{◌≡◌, ◌&&◌, not, bytes_eq};
ghost use Rattle.party_state.specs.State.{is_usable, same_pair, expands_alike};

use party_tables::LinkRec;
use x_base::{Ident, Side};
use x_mac::Pair;

/// Whether the link can be used with the peer on this side: ready, and not with a centre.
pub(crate) fn can_be_used(peer: &Ident, side: Side, link: &LinkRec) -> bool
    ensures { result ≡ is_usable peer.now side link.now }
{
    *peer == link.peer && side == link.side && link.ready && link.label.bytes() != b"C".as_slice()
}

/// Whether the two are one pair.
pub(crate) fn are_same(a: &Pair, b: &Pair) -> bool
    ensures { result ≡ same_pair a.now b.now }
{
    a.left == b.left && a.right == b.right
}

/// Whether the two expand to the same sixteen bytes.
pub(crate) fn expand_alike(a: &Ident, b: &Ident) -> bool
    ensures { result ≡ expands_alike a.now b.now }
{
    let (left, right) = a.expand();
    let (other_left, other_right) = b.expand();
    left == other_left && right == other_right
}

/// Whether the two are different identities that expand alike.
pub(crate) fn is_alias(a: &Ident, b: &Ident) -> bool
    ensures { result ≡ (not (bytes_eq a.now b.now) && expands_alike a.now b.now) }
{
    *a != *b && expand_alike(a, b)
}
