ghost use Rattle.std.specs.Prelude.{◌≡◌, [], IfOk, OnOk};
ghost use Rattle.csm_write.specs.Canon.{shut_over, canon};
ghost use Rattle.csm_write.specs.Writable.{AreTyped};

use crate::classes::opening;
use crate::closing::Closing;
use crate::writer::Writer;
use csm_grammar::{Message, Shut};
use std::alloc::Global;
use x_base::{NoMemory, Text};
use x_mac::{edc, mac};

/// The code that closes an authenticated text.
fn shut(closing: &Closing, auth: &[u8]) -> Shut
    ensures { result ≡ shut_over auth.now closing.now }
{
    match closing {
        Closing::Mac(key) => Shut::Mac(mac(*key, auth)),
        Closing::Edc => Shut::Edc(edc(auth)),
        Closing::Stated(shut) => *shut,
    }
}

/// Writes the canonical text of a message into a writer of no text.
#[tactic(auto, using(crate::proofs::Closings::closing_typed))]
fn put(writer: &mut Writer, message: &Message, closing: &Closing) -> Result<(), NoMemory>
    requires { writer.old ≡ [] }
    ensures canonical { OnOk result (writer.new ≡ canon message.now closing.now) }
    ensures typed { OnOk result (AreTyped message.now closing.now) }
{
    writer.push(opening(message))?;
    writer.fields(message)?;
    let shut = shut(closing, writer.bytes());
    writer.code(shut)?;
    writer.push(b")")
}

/// Writes the canonical text of a message: its fields in one fixed order with single blanks between
/// them, hexadecimal digits in upper case, counts without leading zeros. The code that closes it is
/// that of its own authenticated text, or the stated one.
///
/// That it is read back as the message, where the texts of the message are of their kinds, its form allows the code and the text has
/// at most 1,024 bytes, is a law of canonical texts (`law_canon_reads_back`, crate canon_laws), as is that what is read of it has
/// this text again (`law_canon_rewrites`).
pub fn write(alloc: Global, message: &Message, closing: &Closing) -> Result<Text, NoMemory>
    ensures canonical { IfOk result (λ text. text ≡ canon message.now closing.now) }
    ensures typed { OnOk result (AreTyped message.now closing.now) }
{
    let mut writer = Writer::new(alloc)?;
    put(&mut writer, message, closing)?;
    Ok(writer.into_text())
}
