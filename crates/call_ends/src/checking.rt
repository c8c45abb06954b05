// A message is checked, and its canonical text written.
ghost use Rattle.std.specs.Prelude.{◌≡◌, ◌⊎◌, true, false, IfOk, IfErr};
ghost use Rattle.csm_grammar.specs.Arrivals.{authenticated_text};
ghost use Rattle.csm_feed.specs.Heard.{input_limit};
ghost use Rattle.call_ends.specs.Check.{IsChecked, IsExact, closing_of, is_right, reply_of};
ghost use Rattle.call_ends.specs.Transfer.{GivesOutput, IsQuiet, TakesInput};
ghost use Rattle.call_ends.specs.Causes.{IsSilent};

use crate::listening::listen;
use crate::status::{Refusal, Status};
use csm_feed::law_one_hearing;
use csm_grammar::{Arrival, Parsed, Shut};
use csm_write::{Closing, write};
use std::alloc::Global;
use x_base::{NoMemory, Sink, Source, Text, Verdict, put_all};
use x_mac::edc;

/// Whether no error detection code other than that of the authenticated text closes it.
fn is_right(auth: &[u8], shut: Shut) -> bool
    ensures { result ≡ is_right auth.now shut }
{
    match shut {
        Shut::Edc(code) => code == edc(auth),
        Shut::Mac(_) => true,
    }
}

/// What closes the canonical text: a new error detection code, or the authentication code that came.
fn closing_of(shut: Shut) -> Closing
    ensures { result ≡ closing_of shut }
{
    match shut {
        Shut::Edc(_) => Closing::Edc,
        Shut::Mac(_) => Closing::Stated(shut),
    }
}

/// The canonical text of the message, and a line feed.
fn reply(alloc: Global, parsed: &Parsed) -> Result<Text, NoMemory>
    ensures { IfOk result (λ text. text ≡ reply_of parsed.now) }
{
    let closing = closing_of(parsed.shut);
    let mut text = write(alloc, &parsed.message, &closing)?;
    text.push(b"\n")?;
    Ok(text)
}

/// The reply to a message, where its code is right. The message isn't kept.
fn judge(alloc: Global, arrival: Arrival) -> Result<Text, Status>
    ensures right { IfOk result (λ text. (true ≡ is_right (authenticated_text arrival) arrival.parsed.shut) × (text ≡ reply_of arrival.parsed)) }
    ensures wrong { IfErr result (λ s. (s ≡ Status.NoMemory) ⊎ ((s ≡ Status.Refused (Refusal.Decided Verdict.BadEdc)) × (false ≡ is_right (authenticated_text arrival) arrival.parsed.shut))) }
{
    if !is_right(arrival.auth(), arrival.parsed.shut) {
        return Err(Status::Refused(Refusal::Decided(Verdict::BadEdc)));
    }
    match reply(alloc, &arrival.parsed) {
        Ok(text) => Ok(text),
        Err(NoMemory) => Err(Status::NoMemory),
    }
}

/// Reads one message, and writes its canonical text where its error detection code is right. An authentication code,
/// which has no key here, is written as it came.
pub fn check<S: Source, K: Sink>(alloc: Global, source: &mut S, sink: &mut K) -> Status
    ensures checked { IsChecked result (S.left source.old) (S.left source.new) (K.written sink.old) (K.written sink.new) }
    ensures exact { IsQuiet (S.faults source.old) (S.faults source.new) → IsQuiet (K.faults sink.old) (K.faults sink.new) → IsExact (S.left source.old) result }
    ensures input { TakesInput input_limit result (S.left source.old) (S.left source.new) (S.faults source.old) (S.faults source.new) }
    ensures output { GivesOutput result (IsSilent result) (sink.new ≡ sink.old) (K.faults sink.old) (K.faults sink.new) }
{
    law_one_hearing();
    let arrival = match listen(alloc, source) {
        Ok(arrival) => arrival,
        Err(status) => return status,
    };
    let text = match judge(alloc, arrival) {
        Ok(text) => text,
        Err(status) => return status,
    };
    match put_all(sink, text.bytes()) {
        Ok(()) => Status::Done,
        Err(_) => Status::WriteFault,
    }
}
