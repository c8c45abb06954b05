// How a line of a batch is written.
ghost use Rattle.std.specs.Prelude.{◌≡◌, ◌++◌, OnOk, IfOk};
ghost use Rattle.std.specs.Fmt.{decimal};
ghost use Rattle.csm_batch.specs.Lines.{line_text};
ghost use Rattle.hex.specs.Hex.{encode_upper};

use itoa::Buffer;
use std::alloc::Global;
use x_base::{NoMemory, Text};

/// Appends the decimal digits of a number, without leading zeros.
pub fn push_number(text: &mut Text, n: u64) -> Result<(), NoMemory>
    ensures { OnOk result (text.new ≡ text.old ++ decimal n) }
{
    let mut digits = Buffer::new();
    text.push(digits.format(n).as_bytes())
}

/// Appends the hexadecimal digits of bytes, in upper case.
fn push_digits(text: &mut Text, alloc: Global, bytes: &[u8]) -> Result<(), NoMemory>
    ensures { OnOk result (text.new ≡ text.old ++ encode_upper bytes.now) }
{
    let digits = hex::encode_upper(alloc, bytes)?;
    text.push(digits.as_bytes())
}

/// The line of a batch by which these bytes arrive at this moment, with its LF. Of 1 to 1,040 bytes it reads back.
pub fn write_line(alloc: Global, moment: u64, bytes: &[u8]) -> Result<Text, NoMemory>
    ensures { IfOk result (λ text. text ≡ line_text moment bytes.now) }
{
    let mut text = Text::new(alloc);
    push_number(&mut text, moment)?;
    text.push(b" ")?;
    push_digits(&mut text, alloc, bytes)?;
    text.push(b"\n")?;
    Ok(text)
}
