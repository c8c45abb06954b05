// Components are read and joined.
ghost use Rattle.std.specs.Prelude.{◌≡◌};
ghost use Rattle.key_parts.specs.Parts.{entered_of};

use crate::lines::{first_part, line_length};
use crate::part::{Form, Part};

/// The key that the lines of an input give: one to three lines, each with its line feed and as long as the first, joined by
/// exclusive or. An `Err` is the number, from 1, of the first line that isn't one; 4 where anything stands behind the third.
pub fn entered(form: Form, bytes: &[u8]) -> Result<Part, u32>
    ensures { result ≡ entered_of form bytes.now }
{
    let length = line_length(bytes);
    let Some((first, rest)) = first_part(form, length, bytes) else {
        return Err(1);
    };
    if rest.is_empty() {
        return Ok(first);
    }
    let Some((second, rest)) = first_part(form, length, rest) else {
        return Err(2);
    };
    if rest.is_empty() {
        return Ok(first.joined_with(second));
    }
    let Some((third, rest)) = first_part(form, length, rest) else {
        return Err(3);
    };
    if rest.is_empty() {
        Ok(first.joined_with(second.joined_with(third)))
    } else {
        Err(4)
    }
}
