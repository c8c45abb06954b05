// The text of a frame.
ghost use Rattle.std.specs.Prelude.{◌≡◌, IfOk, OnOk, drop};
ghost use Rattle.key_journal.specs.Journal.{frame_of, IsBody};
ghost use Rattle.key_journal.specs.States.{IsFrame};

use std::alloc::Global;
use x_base::{NoMemory, Text};

/// The text of the frame of a body of 1 to 4,194,304 bytes: its length in four bytes, most significant first, the body,
/// and the closed gate of the frame that comes next.
pub fn frame(alloc: Global, body: &[u8]) -> Result<Text, NoMemory>
    requires { IsBody body.now }
    ensures text { IfOk result (λ t. t ≡ frame_of body.now) }
    ensures frame { IfOk result IsFrame }
{
    let mut text = Text::with_capacity(alloc, body.len() + 5)?;
    text.push(&[0; 4])?;
    text.push(body)?;
    close_frame(&mut text)?;
    Ok(text)
}

/// Makes of four bytes and the body behind them the text of the body's frame. Takes one byte more, for the gate.
pub fn close_frame(text: &mut Text) -> Result<(), NoMemory>
    requires { IsBody (drop 4 text.old) }
    ensures text { OnOk result (text.new ≡ frame_of (drop 4 text.old)) }
    ensures frame { OnOk result (IsFrame text.new) }
{
    let length = (text.bytes().len() - 4) as u32;
    text.overwrite(0, &length.to_be_bytes());
    text.push(&[0])
}
