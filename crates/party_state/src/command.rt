use csm_grammar::Arrival;
use x_base::{Ident, KeyName, Label, Side};
use x_mac::Pair;

/// What an operator asks of a party.
#[derive(Clone, Copy)]
pub enum Command {
    /// Loads a key-encrypting key that both ends were given.
    Load {
        peer: Ident,
        label: Label,
        side: Side,
        pair: Pair,
    },
    /// Sends a new data key.
    Start {
        peer: Ident,
        label: Option<Label>,
    },
    /// Sends a new key-encrypting key, single or of double length, with a data key under it.
    StartKk {
        peer: Ident,
        label: Option<Label>,
        new: Label,
        single: bool,
    },
    /// Asks the peer for a key, for itself or for an ultimate recipient.
    Ask {
        peer: Ident,
        ultimate: Option<Ident>,
    },
    /// Sends a new data key to a translation centre for an ultimate recipient.
    Translate {
        centre: Ident,
        ultimate: Ident,
    },
    /// Writes the text of an exchange again.
    Resend {
        peer: Ident,
    },
    /// Discontinues a key.
    End {
        peer: Ident,
        name: KeyName,
    },
    /// Gives an exchange up.
    Drop {
        peer: Ident,
    },
    /// Removes the records of ended keys.
    Purge,
}

/// What a party decides on.
#[derive(Drop)]
pub enum Input {
    Ordered(Command),
    Arrived(Arrival),
}
