ghost use Rattle.std.specs.Prelude.{◌≡◌, Err, true, false, IfOk, IfErr};
ghost use Rattle.x_line.specs.LineValues.{named_kind, is_given};
ghost use Rattle.x_line.specs.Line.{is_line};
ghost use Rattle.x_line.specs.Orders.{IsFault, IsGiven, Says, is_telling, is_whole, kind_of, mirror_of};
ghost use Rattle.x_line.specs.Usage.{rows_fault};

use crate::line::{Line, Unread};
use crate::line_order::{mirror_of, order_of};
use crate::opt::Opt;
use crate::order_kind::OrderKind;
use crate::usage::{LineFault, UsageKind, bad_value, missing, unwanted};
use std::alloc::Global;
use x_base::{Count, Ident, KeyName, Label, Role, Side, Words};
use x_mac::Pair;

/// What the program is to do. Keys are as they were written, without a change of parity.
#[derive(Clone, Copy, Debug)]
pub enum Order {
    /// Read a message and write its canonical text.
    Check,
    /// Play a scenario.
    Replay,
    /// Compare a transcript with the scenario whose transcript it is said to be.
    Audit,
    /// Write the messages of a stream as the lines of a batch.
    Batch,
    /// Set up a party, with its generator's pair of keys and seed V.
    Init {
        party: Ident,
        role: Role,
        key: Pair,
        v: u64,
    },
    /// Set up a party, with its generator's pair of keys and seed V from the input.
    Create {
        party: Ident,
        role: Role,
    },
    /// Load a key-encrypting key; a single one is a pair of equal halves.
    Load {
        party: Ident,
        peer: Ident,
        label: Label,
        side: Side,
        pair: Pair,
    },
    /// Load a key-encrypting key from the input.
    Enter {
        party: Ident,
        peer: Ident,
        label: Label,
        side: Side,
    },
    /// Send a new data key, under the key-encrypting key of this label.
    Start {
        party: Ident,
        peer: Ident,
        label: Option<Label>,
    },
    /// Send a new key-encrypting key.
    StartKk {
        party: Ident,
        peer: Ident,
        new: Label,
        label: Option<Label>,
        single: bool,
    },
    /// Ask a peer for a data key, or a distribution centre for one that is shared with another.
    Ask {
        party: Ident,
        peer: Ident,
        ultimate: Option<Ident>,
    },
    /// Ask a translation centre to translate a data key for another.
    Translate {
        party: Ident,
        peer: Ident,
        ultimate: Ident,
    },
    /// Take a message.
    Take {
        party: Ident,
    },
    /// Forget ended keys.
    Purge {
        party: Ident,
    },
    /// Show the party's state.
    Show {
        party: Ident,
    },
    /// Show the check value of a loaded key-encrypting key.
    Value {
        party: Ident,
        peer: Ident,
        label: Label,
        side: Side,
    },
    /// Write the party's state anew in one frame.
    Compact {
        party: Ident,
    },
    /// Write the party's state anew in one frame of the newer format of the file.
    Migrate {
        party: Ident,
    },
    /// Overwrite what doesn't count of the party's file with zeros.
    Wipe {
        party: Ident,
    },
    /// Tell whether the two disks of a party stand for the same, or which is ahead.
    Compare {
        party: Ident,
        mirror: Ident,
    },
    /// Write the last message to a peer again.
    Resend {
        party: Ident,
        peer: Ident,
    },
    /// Give up an exchange.
    Drop {
        party: Ident,
        peer: Ident,
    },
    /// End a data key.
    End {
        party: Ident,
        peer: Ident,
        name: KeyName,
    },
    /// Pay an amount to a peer, under a data key.
    Pay {
        party: Ident,
        peer: Ident,
        name: KeyName,
        ledger: Ident,
        amount: Count,
    },
    /// Accept a payment.
    Accept {
        party: Ident,
        ledger: Ident,
    },
    /// Take a batch at a party, with its plans in a spool.
    Spool {
        party: Ident,
        spool: Ident,
    },
    /// Write the outbox of a spool.
    Outbox {
        spool: Ident,
    },
    /// Play a scenario that is made of a seed.
    Drill {
        seed: u64,
        events: u32,
    },
}

/// What a command line gives.
#[derive(Clone, Copy, Debug)]
pub struct Given {
    pub order: Order,
    /// The identity under which the second disk of the order's party lies, where it is kept on two. It isn't the party's.
    pub mirror: Option<Ident>,
    /// Whether what is accepted is told.
    pub tell: bool,
}

/// The kind of order of the line, where nothing is wrong with its options.
#[tactic(auto, using(crate::proofs::Checking::whole))]
fn checked(line: &Line<'_>) -> Result<OrderKind, UsageKind>
    ensures kind { IfOk result (λ k. named_kind line.now ≡ Some k) }
    ensures whole { IfOk result (λ k. is_whole k line.now ≡ true) }
    ensures none { IfOk result (λ _. rows_fault line.now ≡ None) }
    ensures fault { IfErr result (λ kind. rows_fault line.now ≡ Some kind) }
{
    let Some(kind) = line.kind() else {
        return Err(UsageKind::Command);
    };
    if let Some(opt) = unwanted(kind, line) {
        return Err(UsageKind::Unwanted(opt));
    }
    if let Some(opt) = missing(kind, line) {
        return Err(UsageKind::Missing(opt));
    }
    if let Some(opt) = bad_value(line) {
        return Err(UsageKind::BadValue(opt));
    }
    Ok(kind)
}

/// The order that the line gives.
fn said(line: &Line<'_>) -> Result<Given, UsageKind>
    ensures says { IfOk result (λ g. Says line.now g.order) }
    ensures mirror { IfOk result (λ g. mirror_of (kind_of g.order) line.now ≡ g.mirror) }
    ensures tell { IfOk result (λ g. g.tell ≡ is_given Opt.Tell line.now) }
    ensures none { IfOk result (λ _. rows_fault line.now ≡ None) }
    ensures fault { IfErr result (λ kind. rows_fault line.now ≡ Some kind) }
{
    let kind = checked(line)?;
    match order_of(kind, line) {
        Some(order) => Ok(Given {
            order,
            mirror: mirror_of(kind, line),
            tell: line.is_given(Opt::Tell),
        }),
        None => unreachable!(),
    }
}

/// Reads the words of a command line, which are those behind the program's name.
#[tactic(auto, using(crate::proofs::Checking::not_line))]
pub fn read_order(alloc: Global, words: &Words) -> Result<Given, LineFault>
    ensures order { IfOk result (λ g. IsGiven words.now g.order g.mirror) }
    ensures tell { IfOk result (λ g. g.tell ≡ is_telling words.now) }
    ensures fault { IfErr result (λ fault. IsFault words.now fault) }
    ensures line { result ≡ Err (LineFault.Usage UsageKind.Line) → is_line words.now ≡ false }
{
    let line = match Line::read(alloc, words) {
        Ok(line) => line,
        Err(Unread::Refused) => return Err(LineFault::Usage(UsageKind::Line)),
        Err(Unread::NoMemory) => return Err(LineFault::NoMemory),
    };
    match said(&line) {
        Ok(given) => Ok(given),
        Err(kind) => Err(LineFault::Usage(kind)),
    }
}
