// The first line of bytes.
ghost use Rattle.std.specs.Prelude.{◌≡◌, ◌==◌, option_map};
ghost use Rattle.std.specs.List.{position};
ghost use Rattle.key_parts.specs.Parts.{first_line, first_part, line_length, part_of_length};

use crate::part::{Form, Part, read_part};

fn line_feed(bytes: &[u8]) -> Option<usize>
    ensures { result ≡ position (λ b. b == 10) bytes.now }
{
    bytes.iter().position(|byte| *byte == b'\n')
}

/// The bytes before the first line feed, and those behind it.
fn first_line(bytes: &[u8]) -> Option<(&[u8], &[u8])>
    ensures { option_map (λ p. (p.0.now, p.1.now)) result ≡ first_line bytes.now }
{
    let at = line_feed(bytes)?;
    Some((&bytes[..at], &bytes[at + 1..]))
}

/// How long the first line is; 0 where there is none.
pub(crate) fn line_length(bytes: &[u8]) -> usize
    ensures { result ≡ line_length (first_line bytes.now) }
{
    match first_line(bytes) {
        Some((line, _)) => line.len(),
        None => 0,
    }
}

/// The component that a line of so many bytes spells.
fn part_of_length(form: Form, length: usize, line: &[u8]) -> Option<Part>
    ensures { result ≡ part_of_length form length line.now }
{
    if line.len() == length {
        read_part(form, line)
    } else {
        None
    }
}

/// The component that the first line spells, if it has so many bytes, and the bytes behind that line.
pub(crate) fn first_part(form: Form, length: usize, bytes: &[u8]) -> Option<(Part, &[u8])>
    ensures { option_map (λ p. (p.0, p.1.now)) result ≡ first_part form length bytes.now }
{
    let (line, rest) = first_line(bytes)?;
    Some((part_of_length(form, length, line)?, rest))
}
