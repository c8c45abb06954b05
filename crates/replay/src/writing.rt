// The lines of an event are written.
ghost use Rattle.std.specs.Prelude.{◌≡◌, ◌++◌, ℕ, Err, IfErr, OnOk, OnErr, option_map};
ghost use Rattle.x_base.specs.Edge.{AppendsTo, WrotePrefix};
ghost use Rattle.replay.specs.Around.{SinkStays};
ghost use Rattle.replay.specs.Breaking.{IsBreak};
ghost use Rattle.course.specs.Transcript.{outcome_line, text_line};

use course::{EventOutcome, compose_event};
use open_parties::{Ending, Failure};
use x_base::{Sink, SinkFault, put_all};

/// Writes the lines of an event: what became of it, and the text that it wrote, if it did. They are put together in memory
/// that serves for one event after the other.
pub(crate) fn write_event<K: Sink>(
    sink: &mut K,
    buffer: &mut Vec<u8>,
    number: u32,
    outcome: EventOutcome,
    k: u64,
    text: Option<&[u8]>,
) -> Result<(), Ending>
    ensures written { OnOk result (AppendsTo (K.written sink.old) (K.written sink.new) (outcome_line number outcome ++ text_line k (option_map (λ t. t.now) text.entry))) }
    ensures part { OnErr result (WrotePrefix (K.written sink.old) (K.written sink.new) (outcome_line number outcome ++ text_line k (option_map (λ t. t.now) text.entry))) }
    ensures breaks { IfErr result IsBreak }
    ensures unforged { (n : ℕ) → result ≡ Err (Ending.Forged n) → ⊥ }
    ensures memory { result ≡ Err (Ending.Failed Failure.Fault) → ⊥ }
    ensures sink { SinkStays (K.faults sink.old) (K.faults sink.new) result }
{
    compose_event(buffer, number, outcome, k, text)?;
    match put_all(sink, buffer.as_slice()) {
        Ok(()) => Ok(()),
        Err(SinkFault) => Err(Ending::Write),
    }
}
