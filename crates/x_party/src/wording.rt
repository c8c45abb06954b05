// The notice of a message that is accepted.
ghost use Rattle.std.specs.Prelude.{◌≡◌, ◌++◌, IfOk, OnOk};
ghost use Rattle.std.specs.List.{flat_map};
ghost use Rattle.party_show.specs.Show.{status_word};
ghost use Rattle.x_party.specs.Notices.{class_word, key_words, notice_of};

use csm_grammar::Message;
use party_state::{Edit, Edits, KeyStatus};
use std::alloc::Global;
use x_base::{NoMemory, Text};

/// The word for the class of a message, three letters.
pub fn class_word(message: &Message) -> &'static [u8]
    ensures { result.now ≡ class_word message.now }
{
    match message {
        Message::Rsi(_) => b"RSI",
        Message::Rfs(_) => b"RFS",
        Message::Rtr(_) => b"RTR",
        Message::Ksm(_) => b"KSM",
        Message::Rsm(_) => b"RSM",
        Message::Ers(_) => b"ERS",
        Message::Esm(_) => b"ESM",
        Message::Dsm(_) => b"DSM",
    }
}

fn status_word(status: KeyStatus) -> &'static [u8]
    ensures { result.now ≡ status_word status }
{
    match status {
        KeyStatus::Pending => b"PENDING",
        KeyStatus::Live => b"LIVE",
        KeyStatus::Held => b"HELD",
        KeyStatus::Closing => b"CLOSING",
        KeyStatus::Ended => b"ENDED",
    }
}

/// Appends the name and the status of a key record that is put.
fn push_key(out: &mut Text, edit: &Edit) -> Result<(), NoMemory>
    ensures { OnOk result (out.new ≡ out.old ++ key_words edit.now) }
{
    if let Edit::PutKey(key) = edit {
        out.push(b" ")?;
        key.name.write(out)?;
        out.push(b" ")?;
        out.push(status_word(key.status))?;
    }
    Ok(())
}

fn push_keys(out: &mut Text, edits: &[Edit]) -> Result<(), NoMemory>
    ensures { OnOk result (out.new ≡ out.old ++ flat_map key_words edits.now) }
{
    for edit in edits {
        push_key(out, edit)?;
    }
    Ok(())
}

/// The notice of a message of this class that makes these edits.
pub(crate) fn notice(alloc: Global, class: &[u8], edits: Edits) -> Result<Text, NoMemory>
    ensures { IfOk result (λ text. text ≡ notice_of class.now edits) }
{
    let mut text = Text::new(alloc);
    text.push(b"x917: accepted ")?;
    text.push(class)?;
    if let Some(change) = edits.into_change() {
        push_keys(&mut text, change.into_edits().as_slice())?;
    }
    text.push(b"\n")?;
    Ok(text)
}
