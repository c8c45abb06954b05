ghost use Rattle.std.specs.Prelude.{◌≡◌};
ghost use Rattle.scenario.specs.Kinds.{kind_of, name_of_kind};

/// The kinds of lines.
#[derive(Clone, Copy)]
pub(crate) enum Kind {
    Party,
    Link,
    Time,
    Start,
    StartKk,
    Ask,
    Translate,
    Resend,
    End,
    Drop,
    Purge,
    Pass,
    Recent,
    Bytes,
    Stop,
}

const KINDS: [Kind; 15] = [
    Kind::Party,
    Kind::Link,
    Kind::Time,
    Kind::Start,
    Kind::StartKk,
    Kind::Ask,
    Kind::Translate,
    Kind::Resend,
    Kind::End,
    Kind::Drop,
    Kind::Purge,
    Kind::Pass,
    Kind::Recent,
    Kind::Bytes,
    Kind::Stop,
];

impl Kind {
    fn name(self) -> &'static [u8]
        ensures { result.now ≡ name_of_kind self }
    {
        match self {
            Kind::Party => b"PARTY",
            Kind::Link => b"LINK",
            Kind::Time => b"TIME",
            Kind::Start => b"START",
            Kind::StartKk => b"STARTKK",
            Kind::Ask => b"ASK",
            Kind::Translate => b"TRANSLATE",
            Kind::Resend => b"RESEND",
            Kind::End => b"END",
            Kind::Drop => b"DROP",
            Kind::Purge => b"PURGE",
            Kind::Pass => b"PASS",
            Kind::Recent => b"RECENT",
            Kind::Bytes => b"BYTES",
            Kind::Stop => b"STOP",
        }
    }

    /// The kind of this name.
    pub(crate) fn named(word: &[u8]) -> Option<Kind>
        ensures { result ≡ kind_of word.now }
    {
        KINDS.iter().copied().find(|kind| kind.name() == word)
    }
}
