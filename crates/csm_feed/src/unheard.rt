ghost use Rattle.std.specs.Prelude.{◌≡◌};
ghost use Rattle.csm_feed.specs.Numbers.{unheard_number};

use csm_grammar::ReadRefusal;

/// Why no message is heard of the bytes of an input. Places count from the first byte.
#[derive(Clone, Copy)]
pub enum Unheard {
    /// They were not read as a message. Never with the `NoMemory` of `ReadRefusal`.
    Text(ReadRefusal),
    /// Behind the message a byte stands that isn't taken, at this place.
    Trailing(u64),
}

impl Unheard {
    /// The number of the refusal in a status line (this project's profile).
    pub fn number(self) -> u32
        ensures { result ≡ unheard_number self }
    {
        match self {
            Unheard::Text(refusal) => refusal.number(),
            Unheard::Trailing(_) => 38,
        }
    }
}
