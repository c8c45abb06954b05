ghost use Rattle.std.specs.Prelude.{◌≡◌, IfOk};
ghost use Rattle.pair_check.specs.Values.{check_value_of};

use std::alloc::Global;
use x_base::{NoMemory, Text};
use x_mac::{Pair, ede};

/// The check value: six hexadecimal digits in upper case, the first three bytes of eight zero bytes that are encrypted under
/// the pair (the practice of the field).
pub fn check_value(alloc: Global, pair: Pair) -> Result<Text, NoMemory>
    ensures { IfOk result (λ text. text ≡ check_value_of pair) }
{
    let block = ede(pair, 0).to_be_bytes();
    let digits = hex::encode_upper(alloc, &block[..3])?;
    let mut text = Text::new(alloc);
    text.push(digits.as_bytes())?;
    Ok(text)
}
