// Keys that come from the source: a party is created with its generator, or a key-encrypting key is loaded.
ghost use Rattle.std.specs.Prelude.{◌≡◌, ℕ, Ok};
ghost use Rattle.call_ends.specs.Transfer.{IsQuiet, TookAtMost};
ghost use Rattle.x_line.specs.declared.order.Order.TheVariants.{Create, Enter};
ghost use Rattle.call_ends.specs.Causes.{HasCause, IsSilent};
ghost use Rattle.call_ends.specs.Digits.{digits_limit};
ghost use Rattle.party_calls.specs.Entered.{valued};
ghost use Rattle.party_calls.specs.Obeys.{ExpectsCall, LeavesOthers, Obeys};

use crate::finish::finish;
use call_ends::{Status, take_key};
use key_parts::Form;
use party_state::{Command, Input};
use party_tables::LinkKey;
use std::alloc::Global;
use x_base::{Ident, Role, Sink, Source, Text};
use x_disk::Shelf;
use x_gen::Gen;
use x_party::Outcome;

/// The outcome with a check value in place of the reply, where it is done.
pub fn with_value(outcome: Outcome, value: Text) -> Outcome
    ensures { result ≡ valued value outcome }
{
    match outcome {
        Outcome::Done { .. } => Outcome::Done { reply: Some(value) },
        other => other,
    }
}

/// Loads the key-encrypting key that the source gives, and writes its check value.
pub fn enter<S: Source, K: Sink, H: Shelf>(
    alloc: Global,
    source: &mut S,
    sink: &mut K,
    shelf: &mut H,
    party: &Ident,
    key: LinkKey,
    moment: u64,
) -> Status
    ensures obeys { Obeys (Enter party.now key.peer key.label key.side) moment result (S.left source.old) (S.left source.new) (K.written sink.old) (K.written sink.new) (H.entry shelf.old) (H.entry shelf.new) }
    ensures expects { IsQuiet (S.faults source.old) (S.faults source.new) → IsQuiet (K.faults sink.old) (K.faults sink.new) → IsQuiet (H.faults shelf.old) (H.faults shelf.new)
        → ExpectsCall (Enter party.now key.peer key.label key.side) moment (S.left source.old) (H.entry shelf.old) result }
    ensures others { LeavesOthers (Enter party.now key.peer key.label key.side) result (H.is_back shelf.new) (source.new ≡ source.old) (H.entry shelf.old) (H.entry shelf.new) }
    ensures cause { HasCause result (S.faults source.old) (S.faults source.new) (K.faults sink.old) (K.faults sink.new) (H.faults shelf.old) (H.faults shelf.new) }
    ensures silent { IsSilent result → sink.new ≡ sink.old }
    ensures most { TookAtMost digits_limit (S.left source.old) (S.left source.new) }
{
    let entered = match take_key(alloc, source, Form::Key) {
        Ok(entered) => entered,
        Err(status) => return status,
    };
    let input = Input::Ordered(Command::Load {
        peer: key.peer,
        label: key.label,
        side: key.side,
        pair: entered.part.pair,
    });
    let outcome = x_party::turn(alloc, shelf, party, &input, moment);
    finish(sink, with_value(outcome, entered.value), b"\n")
}

/// Creates a party with the generator that the source gives, and writes the check value of its pair.
pub fn create<S: Source, K: Sink, H: Shelf>(
    alloc: Global,
    source: &mut S,
    sink: &mut K,
    shelf: &mut H,
    party: Ident,
    role: Role,
) -> Status
    ensures obeys { (moment : ℕ) → Obeys (Create party role) moment result (S.left source.old) (S.left source.new) (K.written sink.old) (K.written sink.new) (H.entry shelf.old) (H.entry shelf.new) }
    ensures expects { (moment : ℕ) → IsQuiet (S.faults source.old) (S.faults source.new) → IsQuiet (K.faults sink.old) (K.faults sink.new) → IsQuiet (H.faults shelf.old) (H.faults shelf.new)
        → ExpectsCall (Create party role) moment (S.left source.old) (H.entry shelf.old) result }
    ensures others { LeavesOthers (Create party role) result (H.is_back shelf.new) (source.new ≡ source.old) (H.entry shelf.old) (H.entry shelf.new) }
    ensures cause { HasCause result (S.faults source.old) (S.faults source.new) (K.faults sink.old) (K.faults sink.new) (H.faults shelf.old) (H.faults shelf.new) }
    ensures silent { IsSilent result → sink.new ≡ sink.old }
    ensures most { TookAtMost digits_limit (S.left source.old) (S.left source.new) }
{
    let entered = match take_key(alloc, source, Form::Generator) {
        Ok(entered) => entered,
        Err(status) => return status,
    };
    let generator = Gen {
        key: entered.part.pair,
        v: entered.part.seed,
    };
    let outcome = x_party::create(alloc, shelf, party, role, generator);
    finish(sink, with_value(outcome, entered.value), b"\n")
}
