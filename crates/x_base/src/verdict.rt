ghost use Rattle.std.specs.Prelude.{◌≡◌};

/// What a party decides of a message or a command.
#[derive(Clone, Copy, PartialEq, Eq)]
pub enum Verdict {
    /// Accepted.
    Accept,
    /// The generator drew weak keys alone.
    WeakDraws,
    /// The journal has no room for the change.
    JournalFull,
    /// The disk is not blank.
    NotEmpty,
    /// As many links stand as a party holds, and one more is needed.
    LinksFull,
    /// As many key records stand as a party holds, and one more is needed.
    KeysFull,
    /// The message names another recipient, or this party as its originator.
    NotForMe,
    /// No link names the peer.
    UnknownPeer,
    /// The party's role doesn't serve this class of message or this command, or not with this
    /// service, label or ultimate recipient.
    WrongClass,
    /// No exchange with the peer stands to which this belongs.
    NoExchange,
    /// An exchange with the peer stands already.
    Outstanding,
    /// The party has no such key-encrypting key.
    UnknownKk,
    /// The party has no record of this key.
    UnknownKey,
    /// The message authentication code differs.
    BadMac,
    /// The error detection code differs.
    BadEdc,
    /// The count is below this one, the expected count.
    CountLow(u64),
    /// No count is left under the key-encrypting key.
    CountSpent,
    /// A link with this peer, label and side stands already, or a new label is that of the centres.
    LabelTaken,
    /// The key stands already.
    SameKey,
    /// The peer expands as the party itself, or as another peer.
    Alias,
    /// No party stands on the disk.
    Blank,
}

impl Verdict {
    ghost use Rattle.x_base.specs.Verdict.{number_of};

    /// The number of the verdict in a status line (this project's profile).
    pub fn number(&self) -> u32
        ensures { result ≡ number_of self.now }
    {
        match self {
            Verdict::Accept => 0,
            Verdict::WeakDraws => 4,
            Verdict::JournalFull => 15,
            Verdict::NotEmpty => 18,
            Verdict::LinksFull => 19,
            Verdict::KeysFull => 20,
            Verdict::NotForMe => 21,
            Verdict::UnknownPeer => 22,
            Verdict::WrongClass => 23,
            Verdict::NoExchange => 24,
            Verdict::Outstanding => 25,
            Verdict::UnknownKk => 26,
            Verdict::UnknownKey => 27,
            Verdict::BadMac => 28,
            Verdict::BadEdc => 29,
            Verdict::CountLow(_) => 30,
            Verdict::CountSpent => 31,
            Verdict::LabelTaken => 32,
            Verdict::SameKey => 33,
            Verdict::Alias => 34,
            Verdict::Blank => 37,
        }
    }
}
