ghost use Rattle.std.specs.Prelude.{◌≡◌};
ghost use Rattle.x_line.specs.Options.{name_of};

/// An option of the command line.
#[derive(Clone, Copy, Debug)]
pub enum Opt {
    /// The identity of the party that acts.
    Party,
    /// What the new party is: `bank`, `distribution` or `translation`.
    Role,
    /// The generator's pair of keys, 32 hexadecimal digits.
    Genkey,
    /// The generator's seed V, 16 hexadecimal digits.
    Genseed,
    /// The identity of the other party.
    Peer,
    /// The label of a key-encrypting key.
    Label,
    /// Which end of a loaded key-encrypting key the party is: `out` or `in`.
    Side,
    /// A key-encrypting key: 16 hexadecimal digits, or 32 for a pair.
    Key,
    /// The label of a new key-encrypting key.
    New,
    /// The identity of the ultimate recipient.
    Ultimate,
    /// The name of a data key.
    Name,
    /// The seed of a drill, 1 to 20 decimal digits.
    Seed,
    /// The number of events of a drill, 1 to 10,000.
    Events,
    /// The identity under which a party's spool lies; it isn't the party's.
    Spool,
    /// The identity under which a party's second disk lies; it isn't the party's.
    Mirror,
    /// The identity under which a ledger of payments lies; it isn't the party's.
    Ledger,
    /// The amount of a payment, a count: 1 to 14 decimal digits.
    Amount,
    /// A single key-encrypting key is sent, and no pair: a flag, which takes no value.
    Single,
    /// What is accepted is told on standard error: a flag, which takes no value.
    Tell,
}

/// The options in the order in which the first at fault is sought.
pub const OPTIONS: [Opt; 19] = [
    Opt::Party,
    Opt::Role,
    Opt::Genkey,
    Opt::Genseed,
    Opt::Peer,
    Opt::Label,
    Opt::Side,
    Opt::Key,
    Opt::New,
    Opt::Ultimate,
    Opt::Name,
    Opt::Seed,
    Opt::Events,
    Opt::Spool,
    Opt::Mirror,
    Opt::Ledger,
    Opt::Amount,
    Opt::Single,
    Opt::Tell,
];

impl Opt {
    /// The option as it is written behind two dashes.
    pub fn name<'a>(self) -> &'a str
        ensures { result.now ≡ name_of self }
    {
        match self {
            Opt::Party => "party",
            Opt::Role => "role",
            Opt::Genkey => "genkey",
            Opt::Genseed => "genseed",
            Opt::Peer => "peer",
            Opt::Label => "label",
            Opt::Side => "side",
            Opt::Key => "key",
            Opt::New => "new",
            Opt::Ultimate => "ultimate",
            Opt::Name => "name",
            Opt::Seed => "seed",
            Opt::Events => "events",
            Opt::Spool => "spool",
            Opt::Mirror => "mirror",
            Opt::Ledger => "ledger",
            Opt::Amount => "amount",
            Opt::Single => "single",
            Opt::Tell => "tell",
        }
    }
}
