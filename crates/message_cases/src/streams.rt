// Messages of a stream that comes in pieces.
use case_table::{Call, Table};
use csm_feed::{Feed, Next};
use csm_grammar::{ReadRefusal, Tag};
use std::alloc::Global;
use x_base::NoMemory;

const MESSAGES: [&[u8]; 3] = [
    b"CSM(MCL/RSI RCV/BANKB ORG/BANKA SVR/KD EDC/00000000)",
    b"CSM(MCL/RSM\r\nRCV/BANKA ORG/BANKB MAC/1a2b 3C4D )",
    b"CSM(MCL/DSM RCV/BANKB ORG/BANKA IDD/BANKA.BANKA.K1.0001 MAC/12345678)",
];

/// These messages, and behind them, from place 177 on, a text with a fault at 22.
const STREAM: &[u8] = b" \r\nCSM(MCL/RSI RCV/BANKB ORG/BANKA SVR/KD EDC/00000000)\r\n\n\
    CSM(MCL/RSM\r\nRCV/BANKA ORG/BANKB MAC/1a2b 3C4D )\
    CSM(MCL/DSM RCV/BANKB ORG/BANKA IDD/BANKA.BANKA.K1.0001 MAC/12345678)  \
    CSM(MCL/RSI RCV/BANKB RCV/BANKB ORG/BANKA)";

const FAULT: ReadRefusal = ReadRefusal::Repeated(Tag::Rcv, 199);

/// What a feed gives that is asked for a message.
#[derive(Clone, Copy)]
enum Outcome {
    Wanted,
    NotYet,
    Fault,
    Other,
}

fn next_outcome(alloc: Global, feed: &mut Feed, message: &[u8]) -> Outcome {
    let is_wanted = match feed.next(alloc) {
        Next::Message(arrival) => arrival.text.bytes() == message,
        Next::NotYet => return Outcome::NotYet,
        Next::Refused(refusal) if refusal == FAULT => return Outcome::Fault,
        _ => return Outcome::Other,
    };
    if is_wanted {
        Outcome::Wanted
    } else {
        Outcome::Other
    }
}

/// What comes of a message that is cut at a place.
fn cut_row(alloc: Global, table: &mut Table, message: &[u8], cut: usize) -> Result<(), NoMemory> {
    let (first, second) = message.split_at(cut.min(message.len()));
    let mut feed = Feed::new(alloc)?;
    feed.push(first);
    let waits = matches!(next_outcome(alloc, &mut feed, message), Outcome::NotYet);
    feed.push(second);
    let comes = matches!(next_outcome(alloc, &mut feed, message), Outcome::Wanted);
    table.row(&[
        Call::answer("next waits", waits, true),
        Call::answer("next gives the message", comes, true),
        Call::answer("finish", feed.finish().is_ok(), true),
    ])
}

/// A message that is cut anywhere.
pub(crate) fn cuts(alloc: Global, table: &mut Table) -> Result<(), NoMemory> {
    let message = MESSAGES[1];
    for cut in 0..message.len() {
        cut_row(alloc, table, message, cut)?;
    }
    Ok(())
}

/// How many of the messages that the feed has come, from this one on.
fn come(alloc: Global, feed: &mut Feed, from: usize) -> usize {
    let mut came = from;
    for message in MESSAGES.iter().skip(from) {
        match next_outcome(alloc, feed, *message) {
            Outcome::Wanted => came = came.saturating_add(1),
            _ => return came,
        }
    }
    came
}

/// How many messages come of the stream in pieces of this size.
fn come_in_pieces(alloc: Global, feed: &mut Feed, size: usize) -> usize {
    let mut came = 0;
    let mut stream = STREAM;
    for _ in 0..STREAM.len() {
        let (piece, behind) = stream.split_at(size.min(stream.len()));
        feed.push(piece);
        came = come(alloc, feed, came);
        stream = behind;
    }
    came
}

/// The row of a stream that comes in pieces of this size.
fn piece_row(alloc: Global, table: &mut Table, size: usize) -> Result<(), NoMemory> {
    let mut feed = Feed::new(alloc)?;
    let came = come_in_pieces(alloc, &mut feed, size);
    let refused = matches!(next_outcome(alloc, &mut feed, STREAM), Outcome::Fault);
    table.row(&[
        Call::number("messages", came as u64, 3),
        Call::answer("next refuses the fourth", refused, true),
        Call::answer("finish refuses it", feed.finish() == Err(FAULT), true),
    ])
}

/// A stream that comes in pieces of 1, of 7 and of all bytes.
pub(crate) fn pieces(alloc: Global, table: &mut Table) -> Result<(), NoMemory> {
    for size in [1, 7, STREAM.len()] {
        piece_row(alloc, table, size)?;
    }
    Ok(())
}
