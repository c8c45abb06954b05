// The lines of an event are put together.
ghost use Rattle.std.specs.Prelude.{◌≡◌, ◌++◌, OnOk, option_map};
ghost use Rattle.std.specs.Fmt.{decimal};
ghost use Rattle.course.specs.Transcript.{outcome_line, text_line};

use crate::progress::EventOutcome;
use itoa::Buffer;
use x_base::NoMemory;

/// Appends the decimal digits of a number.
fn push_number(buffer: &mut Vec<u8>, n: u64) -> Result<(), NoMemory>
    ensures { OnOk result (buffer.new.items ≡ buffer.old.items ++ decimal n) }
{
    let mut digits = Buffer::new();
    buffer.extend_from_slice(digits.format(n).as_bytes())?;
    Ok(())
}

/// Appends the line of an event.
fn push_outcome(buffer: &mut Vec<u8>, number: u32, outcome: EventOutcome) -> Result<(), NoMemory>
    ensures { OnOk result (buffer.new.items ≡ buffer.old.items ++ outcome_line number outcome) }
{
    buffer.extend_from_slice(b"E")?;
    push_number(buffer, number as u64)?;
    match outcome {
        EventOutcome::Done => buffer.extend_from_slice(b" DONE\n")?,
        EventOutcome::Refused(why) => {
            buffer.extend_from_slice(b" REFUSED ")?;
            push_number(buffer, why as u64)?;
            buffer.extend_from_slice(b"\n")?;
        }
        EventOutcome::Stopped => buffer.extend_from_slice(b" STOPPED\n")?,
        EventOutcome::Nothing => buffer.extend_from_slice(b" NONE\n")?,
    }
    Ok(())
}

/// Appends the line of a text, if there is one.
fn push_text(buffer: &mut Vec<u8>, k: u64, text: Option<&[u8]>) -> Result<(), NoMemory>
    ensures { OnOk result (buffer.new.items ≡ buffer.old.items ++ text_line k (option_map (λ t. t.now) text.entry)) }
{
    let Some(text) = text else {
        return Ok(());
    };
    buffer.extend_from_slice(b"T")?;
    push_number(buffer, k)?;
    buffer.extend_from_slice(b" ")?;
    buffer.extend_from_slice(text)?;
    buffer.extend_from_slice(b"\n")?;
    Ok(())
}

/// Makes the lines of an event, in place of what the buffer held.
pub fn compose_event(
    buffer: &mut Vec<u8>,
    number: u32,
    outcome: EventOutcome,
    k: u64,
    text: Option<&[u8]>,
) -> Result<(), NoMemory>
    ensures { OnOk result (buffer.new.items ≡ outcome_line number outcome ++ text_line k (option_map (λ t. t.now) text.entry)) }
{
    buffer.clear();
    push_outcome(buffer, number, outcome)?;
    push_text(buffer, k, text)
}
