// The two disks of a party are compared.
ghost use Rattle.std.specs.Prelude.{◌≡◌, ◌≢◌, ℕ, IfOk, string_bytes};
ghost use Rattle.call_ends.specs.Transfer.{GivesOutput, IsQuiet};
ghost use Rattle.x_pair.specs.Comparisons.{IsAnswered};
ghost use Rattle.call_ends.specs.Causes.{HasCause, IsSilent};
ghost use Rattle.party_calls.specs.Compared.{EndsOrForgets, FollowsComparison, IsComparing, likeness_text, status_of_likeness};
ghost use Rattle.party_calls.specs.Ends.{IsOfParty};
ghost use Rattle.party_calls.specs.Obeys.{LeavesRest};

use call_ends::{Refusal, Status, put_text};
use std::alloc::{AllocError, Global};
use x_base::{Ident, NoMemory, Sink, Text};
use x_disk::Shelf;
use x_pair::{Compared, Likeness, compare_pair};

fn words_of(alloc: Global, likeness: Likeness) -> Result<String, AllocError>
    ensures { IfOk result (λ s. string_bytes s ≡ likeness_text likeness) }
{
    match likeness {
        Likeness::Same => format!(in alloc; "SAME"),
        Likeness::FirstAhead => format!(in alloc; "FIRST AHEAD"),
        Likeness::SecondAhead => format!(in alloc; "SECOND AHEAD"),
        Likeness::Neither => format!(in alloc; "NEITHER"),
        Likeness::OtherParty => format!(in alloc; "OTHER PARTY"),
        Likeness::FirstBlank => format!(in alloc; "FIRST BLANK"),
        Likeness::SecondBlank => format!(in alloc; "SECOND BLANK"),
        Likeness::BothBlank => format!(in alloc; "BOTH BLANK"),
        Likeness::FirstDamaged(place) => format!(in alloc; "FIRST DAMAGED {place}"),
        Likeness::SecondDamaged(place) => format!(in alloc; "SECOND DAMAGED {place}"),
    }
}

/// The line that tells a likeness, without its line feed.
fn likeness_text(alloc: Global, likeness: Likeness) -> Result<Text, NoMemory>
    ensures { IfOk result (λ text. text ≡ likeness_text likeness) }
{
    let mut text = Text::new(alloc);
    text.push(words_of(alloc, likeness)?.as_bytes())?;
    Ok(text)
}

fn status_of(likeness: Likeness) -> Status
    ensures { result ≡ status_of_likeness likeness }
{
    match likeness {
        Likeness::Same => Status::Done,
        _ => Status::Refused(Refusal::Unlike),
    }
}

/// Writes the line of a comparison.
fn finish_comparison<K: Sink>(alloc: Global, sink: &mut K, compared: Compared) -> Status
    ensures ends { EndsOrForgets compared result (K.written sink.old) (K.written sink.new) }
    ensures answered { IsOfParty result → IsAnswered compared }
    ensures output { GivesOutput result (IsSilent result) (sink.new ≡ sink.old) (K.faults sink.old) (K.faults sink.new) }
{
    match compared {
        Compared::Done(likeness) => match likeness_text(alloc, likeness) {
            Ok(text) => put_text(sink, Some(text), b"\n", status_of(likeness)),
            Err(_) => Status::NoMemory,
        },
        Compared::Fault => Status::DiskFault,
        Compared::NoMemory => Status::NoMemory,
    }
}

/// Tells what the two disks of a party are to one another. Nothing is written to them.
pub fn compare<K: Sink, H: Shelf>(
    alloc: Global,
    sink: &mut K,
    shelf: &mut H,
    party: &Ident,
    mirror: &Ident,
) -> Status
    requires { party.now ≢ mirror.now }
    ensures compared { IsComparing party.now mirror.now (H.entry shelf.old) (H.entry shelf.new) result (K.written sink.old) (K.written sink.new) }
    ensures follows { IsQuiet (K.faults sink.old) (K.faults sink.new) → IsQuiet (H.faults shelf.old) (H.faults shelf.new)
        → FollowsComparison (H.entry shelf.old party.now) (H.entry shelf.old mirror.now) result }
    ensures rest { LeavesRest party.now mirror.now result (H.is_back shelf.new) (sink.new ≡ sink.old) (H.entry shelf.old) (H.entry shelf.new) (K.faults sink.old) (K.faults sink.new) (H.faults shelf.old) (H.faults shelf.new) }
    ensures cause { (read reads : ℕ) → HasCause result read reads (K.faults sink.old) (K.faults sink.new) (H.faults shelf.old) (H.faults shelf.new) }
{
    let compared = compare_pair(alloc, shelf, party, mirror);
    finish_comparison(alloc, sink, compared)
}
