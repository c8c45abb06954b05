// A stream of messages is written as a batch.
ghost use Rattle.std.specs.Prelude.{◌≡◌, ◌++◌, IfOk, IfErr, OnOk};
ghost use Rattle.csm_batch.specs.Lines.{line_text};
ghost use Rattle.x_spool.specs.Inbox.{IsInbox, WhyNoInbox};

use csm_batch::write_line;
use csm_feed::{Feed, Next};
use csm_grammar::{Arrival, ReadRefusal};
use csm_read::{law_fault_ends, law_fault_stays};
use std::alloc::Global;
use x_base::{NoMemory, Text};

/// Why a stream isn't written as a batch.
#[derive(Clone, Copy)]
pub enum InboxFault {
    /// Behind its messages stands what isn't one. The place counts from the first byte.
    Refused(ReadRefusal),
    NoMemory,
}

/// Appends the line by which a message arrives at a moment.
fn push_line(
    lines: &mut Text,
    alloc: Global,
    moment: u64,
    arrival: &Arrival,
) -> Result<(), NoMemory>
    ensures { OnOk result (lines.new ≡ lines.old ++ line_text moment arrival.now.text) }
{
    let line = write_line(alloc, moment, arrival.text.bytes())?;
    lines.push(line.bytes())
}

/// The messages of a stream, each as the line of a batch by which it arrives at this moment. Separators before, between and
/// behind them are left out.
pub fn inbox_lines(alloc: Global, moment: u64, stream: &[u8]) -> Result<Text, InboxFault>
    ensures lines { IfOk result (IsInbox moment stream.now) }
    ensures refused { IfErr result (WhyNoInbox stream.now) }
{
    law_fault_ends();
    law_fault_stays();
    let Ok(mut feed) = Feed::new(alloc) else {
        return Err(InboxFault::NoMemory);
    };
    let mut lines = Text::new(alloc);
    let mut at = 0;
    let mut goes_on = true;
    'taking: while goes_on {
        match feed.next(alloc) {
            Next::Message(arrival) => {
                let Ok(()) = push_line(&mut lines, alloc, moment, &arrival) else {
                    return Err(InboxFault::NoMemory);
                };
            }
            Next::NotYet => {
                let (_, rest) = stream.split_at(at);
                let count = feed.push(rest);
                at += count;
                goes_on = count > 0;
            }
            Next::Refused(refusal) => return Err(InboxFault::Refused(refusal)),
            Next::NoMemory => return Err(InboxFault::NoMemory),
        }
    }
    match feed.finish() {
        Ok(()) => Ok(lines),
        Err(refusal) => Err(InboxFault::Refused(refusal)),
    }
}
