// The values that the command line alone has.
ghost use Rattle.std.specs.Prelude.{◌≡◌};
ghost use Rattle.x_line.specs.Values.{events_of, other_than, role_of, side_of};

use x_base::{Ident, Role, Side};
use x_values::read_plain_number_within;

/// What a party is.
pub(crate) fn role(text: &str) -> Option<Role>
    ensures { result ≡ role_of text.now }
{
    match text {
        "bank" => Some(Role::Bank),
        "distribution" => Some(Role::Distribution),
        "translation" => Some(Role::Translation),
        _ => None,
    }
}

/// Which end of a key-encrypting key a party is.
pub(crate) fn side(text: &str) -> Option<Side>
    ensures { result ≡ side_of text.now }
{
    match text {
        "out" => Some(Side::Sends),
        "in" => Some(Side::Takes),
        _ => None,
    }
}

/// A name other than this one, if one is given.
pub(crate) fn other_than(taken: Option<Ident>, name: Ident) -> Option<Ident>
    ensures { result ≡ other_than taken name }
{
    if taken == Some(name) {
        None
    } else {
        Some(name)
    }
}

/// A number of events, from 1 to 10,000.
pub(crate) fn events(digits: &[u8]) -> Option<u32>
    ensures { result ≡ events_of digits.now }
{
    let number = read_plain_number_within(1, 10_000, digits)?;
    u32::try_from(number).ok()
}
