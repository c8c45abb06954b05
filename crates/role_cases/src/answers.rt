// What a party answers, told in a line.
use crate::acts::input_of;
use crate::words::number_of;
use member::{Answer, Holder, PartyInMemory};
use std::alloc::Global;
use x_base::{FullName, Text, Verdict};

/// What a row asks of an act.
#[derive(Clone, Copy)]
enum Asked {
    /// The answer, behind which the party goes on.
    Answer,
    /// The key under which the text is closed.
    Under,
    /// The key under which the code is tested.
    Tests,
}

/// What is asked, and the moment and the act.
fn asked_of(line: &str) -> (Asked, &str) {
    if let Some(rest) = line.strip_prefix("under ") {
        return (Asked::Under, rest);
    }
    if let Some(rest) = line.strip_prefix("tests ") {
        return (Asked::Tests, rest);
    }
    (Asked::Answer, line)
}

/// Appends the number of the verdict.
fn push_number(alloc: Global, told: &mut Text, verdict: Verdict) -> Option<()> {
    let number = verdict.number();
    let number = format!(in alloc; "{number}").ok()?;
    told.push(number.as_bytes()).ok()
}

/// Appends the full name of a key, or none.
fn push_name(told: &mut Text, name: &Option<FullName>) -> Option<()> {
    let Some(full) = name else {
        return told.push(b"none").ok();
    };
    full.name.write(told).ok()?;
    told.push(b" ").ok()?;
    told.push(full.recipient.bytes()).ok()
}

/// Appends the number of the verdict, and the text that is written, where one is.
fn push_answer(alloc: Global, told: &mut Text, answer: &Answer) -> Option<()> {
    push_number(alloc, told, answer.verdict)?;
    let Some(reply) = &answer.reply else {
        return Some(());
    };
    told.push(b" ").ok()?;
    told.push(reply.bytes()).ok()
}

/// Appends the full name and the value of the key under which a code is tested, and whether the code is right, or none; where
/// the message is not refused exactly for a wrong code, the number of the verdict behind it.
fn push_lead(alloc: Global, told: &mut Text, answer: &Answer) -> Option<()> {
    push_name(told, &answer.lead.map(|lead| lead.under))?;
    let mut is_wrong = false;
    if let Some(lead) = answer.lead {
        is_wrong = !lead.verified;
        let value = lead.value;
        let word = if is_wrong { "wrong" } else { "right" };
        let rest = format!(in alloc; " {value:x} {word}").ok()?;
        told.push(rest.as_bytes()).ok()?;
    }
    if is_wrong == (answer.verdict == Verdict::BadMac) {
        return Some(());
    }
    told.push(b", refused ").ok()?;
    push_number(alloc, told, answer.verdict)
}

/// What is told of an answer.
fn told_of(alloc: Global, asked: Asked, answer: &Answer) -> Option<Text> {
    let mut told = Text::new(alloc);
    let is_written = answer.verdict == Verdict::Accept && answer.reply.is_some();
    match asked {
        Asked::Tests => push_lead(alloc, &mut told, answer)?,
        Asked::Under if is_written => push_name(&mut told, &answer.under)?,
        _ => push_answer(alloc, &mut told, answer)?,
    }
    Some(told)
}

/// The party behind an act, and what it gives; none where it can't be read, or no memory is left.
pub(crate) fn played(
    alloc: Global,
    party: PartyInMemory,
    line: &str,
) -> Option<(PartyInMemory, Text)> {
    let (asked, line) = asked_of(line);
    let (moment, act) = line.split_once(" ")?;
    let moment = number_of(moment)?;
    let input = input_of(alloc, act)?;
    let planned = party.plan(alloc, &input, moment).ok()?;
    let told = told_of(alloc, asked, PartyInMemory::answer(&planned))?;
    if let Asked::Answer = asked {
        let (party, _) = PartyInMemory::carry_out(planned).ok()?;
        return Some((party, told));
    }
    Some((PartyInMemory::cancel(planned), told))
}
