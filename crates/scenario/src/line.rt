use x_base::{Ident, KeyName, Label, Role, Text};
use x_mac::Pair;

/// A line of a scenario, with its values in the order in which they are written. Pairs are as they
/// were written, without a change of parity.
#[derive(Drop)]
pub enum Line {
    /// A party, with its generator's pair of keys and seed V.
    Party {
        name: Ident,
        role: Role,
        pair: Pair,
        v: u64,
    },
    /// A key-encrypting key, loaded at both its ends.
    Link {
        origin: Ident,
        recipient: Ident,
        label: Label,
        pair: Pair,
    },
    /// Sets the moment.
    Time {
        moment: u64,
    },
    /// Sends a new data key, under the key-encrypting key of this label.
    Start {
        party: Ident,
        peer: Ident,
        label: Option<Label>,
    },
    /// Sends a new key-encrypting key.
    StartKk {
        party: Ident,
        peer: Ident,
        label: Label,
        new: Label,
        single: bool,
    },
    /// Asks a peer for a data key, or a distribution centre for one that is shared with another.
    Ask {
        party: Ident,
        peer: Ident,
        ultimate: Option<Ident>,
    },
    /// Asks a translation centre to translate a data key for another.
    Translate {
        party: Ident,
        centre: Ident,
        ultimate: Ident,
    },
    /// Sends the last message to a peer again.
    Resend {
        party: Ident,
        peer: Ident,
    },
    /// Ends a data key.
    End {
        party: Ident,
        peer: Ident,
        name: KeyName,
    },
    /// Gives up an exchange.
    Drop {
        party: Ident,
        peer: Ident,
    },
    /// Forgets ended keys.
    Purge {
        party: Ident,
    },
    /// The `k`-th text, from 1, arrives at the party.
    Pass {
        k: u32,
        party: Ident,
    },
    /// The `j`-th text counted back from the last one, from 1, arrives where its RCV says.
    Recent {
        j: u32,
    },
    /// These bytes arrive.
    Bytes {
        party: Ident,
        bytes: Text,
    },
    /// Stops the next event at its `n`-th disk call, with this choice of what a power-off leaves.
    Stop {
        n: u64,
        choice: u64,
    },
}
