// What happens at a party: a command, or a message that arrives.
use crate::words::{ident_of, label_of, name_of, pair_of, side_of, words_of};
use csm_read::read_arrival;
use party_state::{Command, Input};
use std::alloc::Global;
use x_base::Ident;

/// The commands to a peer.
#[derive(Clone, Copy)]
enum Kind {
    Load,
    Start,
    StartKk,
    Ask,
    Translate,
    Resend,
    Drop,
    End,
}

fn kind_of(name: &str) -> Option<Kind> {
    let kinds = [
        ("load", Kind::Load),
        ("start", Kind::Start),
        ("startkk", Kind::StartKk),
        ("ask", Kind::Ask),
        ("translate", Kind::Translate),
        ("resend", Kind::Resend),
        ("drop", Kind::Drop),
        ("end", Kind::End),
    ];
    kinds
        .iter()
        .find(|entry| entry.0 == name)
        .map(|entry| entry.1)
}

/// A command to a peer, by its name and up to three words more.
fn command_to(peer: Ident, name: &str, words: [&str; 3]) -> Option<Command> {
    let [first, second, third] = words;
    match kind_of(name)? {
        Kind::Load => Some(Command::Load {
            peer,
            label: label_of(first)?,
            side: side_of(second)?,
            pair: pair_of(third)?,
        }),
        Kind::Start => Some(Command::Start {
            peer,
            label: label_of(first),
        }),
        Kind::StartKk => Some(Command::StartKk {
            peer,
            new: label_of(first)?,
            label: label_of(second),
            single: third == "single",
        }),
        Kind::Ask => Some(Command::Ask {
            peer,
            ultimate: ident_of(first),
        }),
        Kind::Translate => Some(Command::Translate {
            centre: peer,
            ultimate: ident_of(first)?,
        }),
        Kind::Resend => Some(Command::Resend { peer }),
        Kind::Drop => Some(Command::Drop { peer }),
        Kind::End => Some(Command::End {
            peer,
            name: name_of(first)?,
        }),
    }
}

/// The input of an act; none where it isn't one.
pub(crate) fn input_of(alloc: Global, act: &str) -> Option<Input> {
    if let Some(text) = act.strip_prefix("take ") {
        let arrival = read_arrival(alloc, text.as_bytes()).ok()?;
        return Some(Input::Arrived(arrival));
    }
    if act == "purge" {
        return Some(Input::Ordered(Command::Purge));
    }
    let [name, peer, first, second, third, _] = words_of(act);
    let command = command_to(ident_of(peer)?, name, [first, second, third])?;
    Some(Input::Ordered(command))
}
