// The summary of a play.
ghost use Rattle.std.specs.Prelude.{◌≡◌, ◌++◌, codes, IfOk, OnOk};
ghost use Rattle.course.specs.Summary.{summary_line, summary_of};

use crate::tally::Tally;
use std::alloc::Global;
use x_base::{NoMemory, Text};

/// Appends a line of a word and a number.
fn put_line(alloc: Global, text: &mut Text, word: &str, number: u32) -> Result<(), NoMemory>
    ensures { OnOk result (text.new ≡ text.old ++ summary_line word.now number) }
{
    let line = format!(in alloc; "{word} {number}\n")?;
    text.push(line.as_bytes())
}

/// Appends what became of the events, and how many texts there are.
fn put_events(alloc: Global, text: &mut Text, tally: &Tally) -> Result<(), NoMemory>
    ensures { OnOk result (text.new ≡ text.old ++ summary_line (codes "EVENTS") tally.now.events
        ++ summary_line (codes "DONE") tally.now.done
        ++ summary_line (codes "REFUSED") tally.now.refused
        ++ summary_line (codes "STOPPED") tally.now.stopped
        ++ summary_line (codes "NONE") tally.now.none
        ++ summary_line (codes "TEXTS") tally.now.texts) }
{
    put_line(alloc, text, "EVENTS", tally.events)?;
    put_line(alloc, text, "DONE", tally.done)?;
    put_line(alloc, text, "REFUSED", tally.refused)?;
    put_line(alloc, text, "STOPPED", tally.stopped)?;
    put_line(alloc, text, "NONE", tally.none)?;
    put_line(alloc, text, "TEXTS", tally.texts)
}

/// Appends how many keys have each status.
fn put_keys(alloc: Global, text: &mut Text, tally: &Tally) -> Result<(), NoMemory>
    ensures { OnOk result (text.new ≡ text.old ++ summary_line (codes "LIVE") tally.now.live
        ++ summary_line (codes "HELD") tally.now.held
        ++ summary_line (codes "CLOSING") tally.now.closing
        ++ summary_line (codes "ENDED") tally.now.ended) }
{
    put_line(alloc, text, "LIVE", tally.live)?;
    put_line(alloc, text, "HELD", tally.held)?;
    put_line(alloc, text, "CLOSING", tally.closing)?;
    put_line(alloc, text, "ENDED", tally.ended)
}

/// The summary of a play: the ten lines of a tally.
pub fn summary(alloc: Global, tally: &Tally) -> Result<Text, NoMemory>
    ensures { IfOk result (λ text. text ≡ summary_of tally.now) }
{
    let mut text = Text::new(alloc);
    put_events(alloc, &mut text, tally)?;
    put_keys(alloc, &mut text, tally)?;
    Ok(text)
}
