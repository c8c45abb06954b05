// Keys that come from the source, at a party that is kept on two disks.
ghost use Rattle.std.specs.Prelude.{◌≡◌, ◌≢◌, ℕ};
ghost use Rattle.call_ends.specs.Transfer.{TookAtMost};
ghost use Rattle.x_line.specs.declared.order.Order.TheVariants.{Create, Enter};
ghost use Rattle.call_ends.specs.Causes.{HasCause, IsSilent};
ghost use Rattle.call_ends.specs.Digits.{digits_limit};
ghost use Rattle.party_calls.specs.Mirrored.{LeavesMirrored, ObeysMirrored};

use crate::entering::with_value;
use crate::finish::finish;
use call_ends::{Status, take_key};
use key_parts::Form;
use party_state::{Command, Input};
use party_tables::LinkKey;
use std::alloc::Global;
use x_base::{Ident, Role, Sink, Source};
use x_disk::Shelf;
use x_gen::Gen;
use x_pair::{create_pair, turn_pair};

/// Loads the key-encrypting key that the source gives, over the party's two disks, and writes its check value.
pub fn enter_mirrored<S: Source, K: Sink, H: Shelf>(
    alloc: Global,
    source: &mut S,
    sink: &mut K,
    shelf: &mut H,
    party: &Ident,
    mirror: &Ident,
    key: LinkKey,
    moment: u64,
) -> Status
    requires { party.now ≢ mirror.now }
    ensures obeys { ObeysMirrored (Enter party.now key.peer key.label key.side) mirror.now moment result (S.left source.old) (S.left source.new) (K.written sink.old) (K.written sink.new) (H.entry shelf.old) (H.entry shelf.new) }
    ensures others { LeavesMirrored (Enter party.now key.peer key.label key.side) mirror.now result (H.is_back shelf.new) (source.new ≡ source.old) (H.entry shelf.old) (H.entry shelf.new) }
    ensures cause { HasCause result (S.faults source.old) (S.faults source.new) (K.faults sink.old) (K.faults sink.new) (H.faults shelf.old) (H.faults shelf.new) }
    ensures silent { IsSilent result → sink.new ≡ sink.old }
    ensures most { TookAtMost digits_limit (S.left source.old) (S.left source.new) }
{
    let entered = match take_key(alloc, source, Form::Key) {
        Ok(entered) => entered,
        Err(status) => return status,
    };
    let input = Input::Ordered(Command::Load {
        peer: key.peer,
        label: key.label,
        side: key.side,
        pair: entered.part.pair,
    });
    let outcome = turn_pair(alloc, shelf, party, mirror, &input, moment);
    finish(sink, with_value(outcome, entered.value), b"\n")
}

/// Creates a party with the generator that the source gives, on two disks, and writes the check value of its pair.
pub fn create_mirrored<S: Source, K: Sink, H: Shelf>(
    alloc: Global,
    source: &mut S,
    sink: &mut K,
    shelf: &mut H,
    party: Ident,
    mirror: &Ident,
    role: Role,
) -> Status
    requires { party ≢ mirror.now }
    ensures obeys { (moment : ℕ) → ObeysMirrored (Create party role) mirror.now moment result (S.left source.old) (S.left source.new) (K.written sink.old) (K.written sink.new) (H.entry shelf.old) (H.entry shelf.new) }
    ensures others { LeavesMirrored (Create party role) mirror.now result (H.is_back shelf.new) (source.new ≡ source.old) (H.entry shelf.old) (H.entry shelf.new) }
    ensures cause { HasCause result (S.faults source.old) (S.faults source.new) (K.faults sink.old) (K.faults sink.new) (H.faults shelf.old) (H.faults shelf.new) }
    ensures silent { IsSilent result → sink.new ≡ sink.old }
    ensures most { TookAtMost digits_limit (S.left source.old) (S.left source.new) }
{
    let entered = match take_key(alloc, source, Form::Generator) {
        Ok(entered) => entered,
        Err(status) => return status,
    };
    let generator = Gen {
        key: entered.part.pair,
        v: entered.part.seed,
    };
    let outcome = create_pair(alloc, shelf, party, mirror, role, generator);
    finish(sink, with_value(outcome, entered.value), b"\n")
}
