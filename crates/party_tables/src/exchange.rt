ghost use Rattle.std.specs.Prelude.{◌≡◌, IfOk};

use crate::table::Row;
use std::alloc::Global;
use std::mem::replace;
use x_base::{Count, Ident, KeyName, Label, NoMemory, Text};

/// The way a key was sent.
#[derive(Clone, Copy, PartialEq, Eq)]
pub enum Via {
    /// Under the link with this label, with a new key-encrypting key where a new label is given.
    Direct { label: Label, new: Option<Label> },
    /// Through a key distribution centre, which answered at this count.
    Distribution { centre: Ident, cta: Count },
    /// Through a key translation centre.
    Translation { centre: Ident },
}

/// What a party waits for.
#[derive(Clone, Copy, PartialEq, Eq)]
pub enum Kind {
    /// A key for this ultimate recipient was asked for.
    Asked {
        ultimate: Ident,
    },
    /// A key for this ultimate recipient is with a translation centre.
    Translating {
        ultimate: Ident,
        value: u64,
        cta: Count,
    },
    /// A key was sent.
    KeySent {
        name: KeyName,
        via: Via,
    },
    /// The peer was asked to end a key.
    Ending {
        name: KeyName,
    },
    /// Two keys were sent in one message. The name is that of the first; the second has the same name with the count one
    /// higher, so that the count of the first is below `LIMIT`.
    PairSent {
        name: KeyName,
    },
}

/// An exchange with a peer that isn't over, and the text that began it, of at most 1,024 bytes.
#[derive(Drop)]
pub struct Exchange {
    pub peer: Ident,
    pub kind: Kind,
    pub text: Text,
}

impl Exchange {
    /// An equal exchange in memory of its own.
    pub fn copy(&self, alloc: Global) -> Result<Exchange, NoMemory>
        ensures { IfOk result (λ copy. copy ≡ self.now) }
    {
        Ok(Exchange {
            peer: self.peer,
            kind: self.kind,
            text: self.text.copy(alloc)?,
        })
    }

    /// The exchange; one without a text stays behind. It takes no memory.
    pub fn take(&mut self, alloc: Global) -> Exchange
        ensures { result ≡ self.old }
    {
        Exchange {
            peer: self.peer,
            kind: self.kind,
            text: replace(&mut self.text, Text::new(alloc)),
        }
    }
}

impl Row<Ident> for Exchange {
    ghost use Rattle.party_tables.specs.Keys.{exchange_key};
    ghost use Rattle.party_tables.specs.Ranges.{IsExchange};

    ghost row_key = { exchange_key };

    ghost IsRow = { IsExchange };

    fn row_key(&self) -> Ident {
        self.peer
    }

    fn copied(&self, alloc: Global) -> Result<Exchange, NoMemory> {
        self.copy(alloc)
    }
}
