// Parties, and what they are asked.
use crate::names::{Names, ident_of, names_of};
use csm_feed::{INPUT_LIMIT, hear};
use party_state::{Command, Input, Role};
use std::alloc::Global;
use x_base::{Ident, NoMemory, Side, Text};
use x_disk::Shelf;
use x_gen::Gen;
use x_mac::Pair;
use x_party::{Outcome, compact, create, migrate, show, turn};

const GENERATOR: Gen = Gen {
    key: Pair {
        left: 0x0123456789ABCDEF,
        right: 0xFEDCBA9876543210,
    },
    v: 1,
};

const LOADED: Pair = Pair {
    left: 0x0123456789ABCDED,
    right: 0xFEDCBA9876543212,
};

/// A party, and the names that its commands have.
#[derive(Clone, Copy)]
pub(crate) struct Party {
    pub(crate) own: Ident,
    side: Side,
    names: Names,
}

/// BANKA, which sends to BANKB, or BANKB, which has the other end of their key-encrypting key.
pub(crate) fn party_of(own: &str) -> Option<Party> {
    let (peer, side) = if own == "BANKA" {
        ("BANKB", Side::Sends)
    } else {
        ("BANKA", Side::Takes)
    };
    Some(Party {
        own: ident_of(own)?,
        side,
        names: names_of(peer, "K1", "BANKA.BANKA.K1.1")?,
    })
}

/// The message as what arrives.
fn arrived(alloc: Global, text: &str) -> Result<Option<Input>, NoMemory> {
    let bytes = text.as_bytes();
    if bytes.len() > INPUT_LIMIT {
        return Ok(None);
    }
    Ok(match hear(alloc, bytes)? {
        Ok(arrival) => Some(Input::Arrived(arrival)),
        Err(_) => None,
    })
}

/// The command of a step that is one.
fn command_of(party: &Party, step: &str) -> Option<Command> {
    let Names { peer, label, name } = party.names;
    match step {
        "load" => Some(Command::Load {
            peer,
            label,
            side: party.side,
            pair: LOADED,
        }),
        "ask" => Some(Command::Ask {
            peer,
            ultimate: None,
        }),
        "start" => Some(Command::Start { peer, label: None }),
        "resend" => Some(Command::Resend { peer }),
        "drop" => Some(Command::Drop { peer }),
        "end" => Some(Command::End { peer, name }),
        "purge" => Some(Command::Purge),
        _ => None,
    }
}

/// The command of a step, or the message that it is.
pub(crate) fn input_of(
    alloc: Global,
    party: &Party,
    step: &str,
) -> Result<Option<Input>, NoMemory> {
    match command_of(party, step) {
        Some(command) => Ok(Some(Input::Ordered(command))),
        None => arrived(alloc, step),
    }
}

/// Appends the text, with a semicolon for each end of a line.
fn tell(told: &mut String, text: &Text) -> Result<(), NoMemory> {
    for byte in text.bytes() {
        told.push(if *byte == b'\n' { ';' } else { *byte as char })?;
    }
    Ok(())
}

/// What is told of an outcome: the text, if there is one, behind a refusal's number.
pub(crate) fn told_of(alloc: Global, outcome: Outcome) -> Result<String, NoMemory> {
    let mut told = String::new(alloc);
    match outcome {
        Outcome::Done { reply: None } => told.push_str("done")?,
        Outcome::Done { reply: Some(text) } => tell(&mut told, &text)?,
        Outcome::Refused { verdict, reply } => {
            let number = verdict.number();
            told = format!(in alloc; "refused {number}")?;
            if let Some(text) = reply {
                told.push(' ')?;
                tell(&mut told, &text)?;
            }
        }
        Outcome::Fault => told.push_str("disk fault")?,
        Outcome::NoMemory => return Err(NoMemory),
        _ => told.push_str("otherwise")?,
    }
    Ok(told)
}

/// What becomes of a step for which the party takes no turn.
fn without_turn<H: Shelf>(
    alloc: Global,
    shelf: &mut H,
    party: &Party,
    step: &str,
) -> Option<Outcome> {
    match step {
        "create" => Some(create(alloc, shelf, party.own, Role::Bank, GENERATOR)),
        "show" => Some(show(alloc, shelf, &party.own)),
        "compact" => Some(compact(alloc, shelf, &party.own)),
        "migrate" => Some(migrate(alloc, shelf, &party.own)),
        _ => None,
    }
}

/// What becomes of a step.
pub(crate) fn asked<H: Shelf>(
    alloc: Global,
    shelf: &mut H,
    party: &Party,
    step: &str,
) -> Result<String, NoMemory> {
    if let Some(outcome) = without_turn(alloc, shelf, party, step) {
        return told_of(alloc, outcome);
    }
    match input_of(alloc, party, step)? {
        Some(input) => told_of(alloc, turn(alloc, shelf, &party.own, &input, 0)),
        None => Ok(String::from_str(alloc, "no step")?),
    }
}
