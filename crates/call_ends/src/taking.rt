// A key is taken from a source.
ghost use Rattle.std.specs.Prelude.{◌≡◌, IfOk, IfErr, Ok};
ghost use Rattle.x_base.specs.Edge.{Rose};
ghost use Rattle.pair_check.specs.Values.{check_value_of};
ghost use Rattle.call_ends.specs.Transfer.{TookAtMost};
ghost use Rattle.call_ends.specs.Digits.{AreRead, IsNoKey, digits_limit};

use crate::status::{Refusal, Status};
use crate::transfer::{GatherError, gather};
use key_parts::{Form, Part};
use pair_check::check_value;
use std::alloc::Global;
use x_base::{Source, Text};

/// How many bytes of a key are taken at most.
const DIGITS_LIMIT: usize = 257;

/// The key that the source gives, and the check value of its pair.
#[derive(Drop)]
pub struct Entered {
    pub part: Part,
    pub value: Text,
}

/// Takes the bytes of a key and reads it.
#[tactic(auto, using(crate::proofs::KeyRead::key_read, crate::proofs::KeyRead::line_at_fault))]
pub fn take_key<S: Source>(alloc: Global, source: &mut S, form: Form) -> Result<Entered, Status>
    ensures read { IfOk result (λ e. AreRead form (S.left source.old) (S.left source.new) (Ok e.part)) }
    ensures value { IfOk result (λ e. e.value ≡ check_value_of e.part.pair) }
    ensures none { IfErr result (IsNoKey form (S.left source.old) (S.left source.new)) }
    ensures read_fault { IfErr result (λ s. s ≡ Status.ReadFault → Rose (S.faults source.old) (S.faults source.new)) }
    ensures most { TookAtMost digits_limit (S.left source.old) (S.left source.new) }
{
    let input = match gather(alloc, source, DIGITS_LIMIT) {
        Ok(input) => input,
        Err(GatherError::Fault) => return Err(Status::ReadFault),
        Err(GatherError::NoMemory) => return Err(Status::NoMemory),
    };
    let part = match key_parts::entered(form, input.bytes()) {
        Ok(part) => part,
        Err(line) => return Err(Status::Refused(Refusal::BadDigits(line))),
    };
    match check_value(alloc, part.pair) {
        Ok(value) => Ok(Entered { part, value }),
        Err(_) => Err(Status::NoMemory),
    }
}
