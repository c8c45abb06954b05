// The texts that a bank writes, and the codes of those that arrive.
ghost use Rattle.std.specs.Prelude.{◌≡◌, ◌≤◌, length, IfOk, OnOk};
ghost use Rattle.csm_write.specs.Canon.{canon};
ghost use Rattle.csm_write.specs.Writable.{AreTyped};
ghost use Rattle.csm_write.specs.Shortness.{free_length};
ghost use Rattle.party_state.specs.Rows.Reply.{Coded, Plain, Again};
ghost use Rattle.party_tables.specs.Ranges.{longest_text};
ghost use Rattle.role_base.specs.Texts.{is_right};

use csm_grammar::{Arrival, Message, Shut};
use csm_write::{Closing, law_canon_short, write};
use std::alloc::Global;
use x_base::{FullName, NoMemory, Text};
use x_mac::edc;

/// A text that a row writes, and the name of the key under which its code was made.
#[derive(Drop)]
pub struct Written {
    pub text: Text,
    pub under: Option<FullName>,
}

/// The text of a message, which is given up.
fn closed_by(alloc: Global, message: Message, closing: &Closing) -> Result<Text, NoMemory>
    ensures canonical { IfOk result (λ text. text ≡ canon message closing.now) }
    ensures typed { OnOk result (AreTyped message closing.now) }
{
    write(alloc, &message, closing)
}

impl Written {
    ghost use Rattle.role_base.specs.Replies.{IsWritten};

    /// The text of a message, closed by its authentication code under a key of 64 bits.
    #[tactic(auto, unfolding(crate::specs::Texts::text_of))]
    pub fn coded(
        alloc: Global,
        message: Message,
        under: FullName,
        key: u64,
    ) -> Result<Written, NoMemory>
        ensures written { IfOk result (λ w. IsWritten w (Coded message under key)) }
        ensures short { free_length message ≤ 64 → IfOk result (λ w. length w.text ≤ longest_text) }
    {
        // Tells that the text is short.
        law_canon_short();
        let text = closed_by(alloc, message, &Closing::Mac(key))?;
        Ok(Written {
            text,
            under: Some(under),
        })
    }

    /// The text of a message, closed by its error detection code.
    #[tactic(auto, unfolding(crate::specs::Texts::text_of))]
    pub fn plain(alloc: Global, message: Message) -> Result<Written, NoMemory>
        ensures written { IfOk result (λ w. IsWritten w (Plain message)) }
        ensures short { free_length message ≤ 64 → IfOk result (λ w. length w.text ≤ longest_text) }
    {
        // Tells that the text is short.
        law_canon_short();
        let text = closed_by(alloc, message, &Closing::Edc)?;
        Ok(Written { text, under: None })
    }

    /// A text that is kept.
    #[tactic(auto, unfolding(crate::specs::Texts::text_of))]
    pub fn again(alloc: Global, text: &Text) -> Result<Written, NoMemory>
        ensures { IfOk result (λ w. IsWritten w (Again text.now)) }
    {
        let text = text.copy(alloc)?;
        Ok(Written { text, under: None })
    }
}

/// Whether the arrival's error detection code is right.
#[tactic(auto, unfolding(crate::specs::Texts::is_right))]
pub fn is_right(arrival: &Arrival) -> bool
    ensures { result ≡ is_right arrival.now }
{
    match arrival.parsed.shut {
        Shut::Mac(_) => false,
        Shut::Edc(code) => edc(arrival.auth()) == code,
    }
}
