// How a run ended, and how that is told.
ghost use Rattle.std.specs.Prelude.{◌≡◌, ◌++◌, IfOk, OnOk, string_bytes};
ghost use Rattle.call_ends.specs.Lines.{pay_text, refusal_text, line_of, exit_code_of};

use csm_feed::Unheard;
use csm_grammar::ReadRefusal;
use pay_auth::PayRefusal;
use scenario::AuditFault;
use std::alloc::{AllocError, Global};
use x_base::{Ident, NoMemory, Text, Verdict};
use x_line::UsageKind;

/// Why an input or a command was refused.
#[derive(Clone, Copy)]
pub enum Refusal {
    /// No message is heard of it.
    Unheard(Unheard),
    /// It is a message that isn't accepted.
    Decided(Verdict),
    /// The command is for a party of the first identity, and on its disk stands one of the second.
    OtherParty(Ident, Ident),
    /// A transcript isn't that of its scenario. Never with `Forged`, which is a status of its own.
    Audit(AuditFault),
    /// A payment isn't made, or isn't accepted.
    Pay(PayRefusal),
    /// On the spool's disk stands another batch.
    OtherBatch,
    /// The party isn't where its spool says, at the plan of this entry, counted from 1.
    OutOfStep(u32),
    /// So many entries of a spool's batch have no plan yet.
    Unplanned(u32),
    /// Two disks don't stand for one party in one state.
    Unlike,
    /// This line of a key that comes from the input, counted from 1, isn't one of its components.
    BadDigits(u32),
}

/// How a run ended.
#[derive(Clone, Copy)]
pub enum Status {
    Done,
    Refused(Refusal),
    /// The words give no order.
    Usage(UsageKind),
    /// The source of the input failed.
    ReadFault,
    /// The sink of the output failed.
    WriteFault,
    /// The shelf or a disk failed.
    DiskFault,
    /// The image of a party's disk stands for no party; the place is that of its first damage.
    Damaged(u64),
    /// This line, counted from 1, is the first that no scenario has.
    BadScenario(u32),
    /// At the event of this number a code agreed that nobody made who holds its key.
    Forged(u32),
    NoMemory,
}

/// The number of a refusal of a payment, and its place or the expected number, where it has one.
fn pay_text(alloc: Global, refusal: &PayRefusal) -> Result<String, AllocError>
    ensures { IfOk result (λ s. string_bytes s ≡ pay_text refusal.now) }
{
    let number = refusal.number();
    match refusal {
        PayRefusal::BadPay(place) => format!(in alloc; "{number} at {place}"),
        PayRefusal::PayLow(expected) => format!(in alloc; "{number} expected {expected}"),
        _ => format!(in alloc; "{number}"),
    }
}

/// The number of a refusal, and its place or the expected count, where it has one.
fn refusal_text(alloc: Global, refusal: &Refusal) -> Result<String, AllocError>
    ensures { IfOk result (λ s. string_bytes s ≡ refusal_text refusal.now) }
{
    match refusal {
        Refusal::Unheard(Unheard::Text(refusal)) => {
            let number = refusal.number();
            let place = refusal.place();
            format!(in alloc; "{number} at {place}")
        }
        Refusal::Unheard(Unheard::Trailing(place)) => format!(in alloc; "38 at {place}"),
        Refusal::Decided(Verdict::CountLow(expected)) => {
            format!(in alloc; "30 expected {expected}")
        }
        Refusal::Decided(verdict) => {
            let number = verdict.number();
            format!(in alloc; "{number}")
        }
        Refusal::OtherParty(_, _) => format!(in alloc; "42"),
        Refusal::Audit(fault) => {
            let number = fault.number();
            let place = fault.place();
            format!(in alloc; "{number} at {place}")
        }
        Refusal::Pay(refusal) => pay_text(alloc, refusal),
        Refusal::OtherBatch => format!(in alloc; "40"),
        Refusal::OutOfStep(_) => format!(in alloc; "41"),
        Refusal::Unplanned(missing) => format!(in alloc; "49 missing {missing}"),
        Refusal::Unlike => format!(in alloc; "50"),
        Refusal::BadDigits(line) => format!(in alloc; "51 at {line}"),
    }
}

fn refusal_line(alloc: Global, refusal: &Refusal) -> Result<String, AllocError>
    ensures { IfOk result (λ s. string_bytes s ≡ line_of (Status.Refused refusal.now)) }
{
    match refusal {
        Refusal::Unheard(Unheard::Text(ReadRefusal::NoMemory)) => {
            return format!(in alloc; "x917: no memory\n");
        }
        Refusal::Audit(AuditFault::Forged(event)) => return forged_line(alloc, *event),
        _ => {}
    }
    let text = refusal_text(alloc, refusal)?;
    format!(in alloc; "x917: refused {text}\n")
}

fn usage_line(alloc: Global, kind: &UsageKind) -> Result<String, AllocError>
    ensures { IfOk result (λ s. string_bytes s ≡ line_of (Status.Usage kind.now)) }
{
    let number = kind.number();
    format!(in alloc; "x917: usage {number}\n")
}

fn damaged_line(alloc: Global, place: u64) -> Result<String, AllocError>
    ensures { IfOk result (λ s. string_bytes s ≡ line_of (Status.Damaged place)) }
{
    format!(in alloc; "x917: damaged at {place}\n")
}

fn bad_line(alloc: Global, number: u32) -> Result<String, AllocError>
    ensures { IfOk result (λ s. string_bytes s ≡ line_of (Status.BadScenario number)) }
{
    format!(in alloc; "x917: bad line {number}\n")
}

fn forged_line(alloc: Global, number: u32) -> Result<String, AllocError>
    ensures { IfOk result (λ s. string_bytes s ≡ line_of (Status.Forged number)) }
{
    format!(in alloc; "x917: forged event {number}\n")
}

/// Appends the line of a status.
fn push_line(out: &mut Text, alloc: Global, status: &Status) -> Result<(), NoMemory>
    ensures { OnOk result (out.new ≡ out.old ++ line_of status.now) }
{
    match status {
        Status::Done => Ok(()),
        Status::Refused(refusal) => out.push(refusal_line(alloc, refusal)?.as_bytes()),
        Status::Usage(kind) => out.push(usage_line(alloc, kind)?.as_bytes()),
        Status::ReadFault => out.push(b"x917: read fault\n"),
        Status::WriteFault => out.push(b"x917: write fault\n"),
        Status::DiskFault => out.push(b"x917: disk fault\n"),
        Status::Damaged(place) => out.push(damaged_line(alloc, *place)?.as_bytes()),
        Status::BadScenario(number) => out.push(bad_line(alloc, *number)?.as_bytes()),
        Status::Forged(number) => out.push(forged_line(alloc, *number)?.as_bytes()),
        Status::NoMemory => out.push(b"x917: no memory\n"),
    }
}

/// The line of a status for standard error, with its line feed; empty at `Done`.
pub fn status_line(alloc: Global, status: &Status) -> Result<Text, NoMemory>
    ensures { IfOk result (λ line. line ≡ line_of status.now) }
{
    let mut line = Text::new(alloc);
    push_line(&mut line, alloc, status)?;
    Ok(line)
}

/// The exit code of a status.
pub fn exit_code(status: &Status) -> u8
    ensures { result ≡ exit_code_of status.now }
{
    match status {
        Status::Done => 0,
        Status::Refused(Refusal::Unheard(Unheard::Text(ReadRefusal::NoMemory))) => 9,
        Status::Refused(Refusal::Audit(AuditFault::Forged(_))) => 8,
        Status::Refused(_) => 1,
        Status::Usage(_) => 2,
        Status::ReadFault => 3,
        Status::WriteFault => 4,
        Status::DiskFault => 5,
        Status::Damaged(_) => 6,
        Status::BadScenario(_) => 7,
        Status::Forged(_) => 8,
        Status::NoMemory => 9,
    }
}
