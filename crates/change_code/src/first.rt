// The party that the first body makes.
ghost use Rattle.std.specs.Prelude.{◌≡◌, None, IfOk, IfSome};
ghost use Rattle.party_state.specs.State.{Party};
ghost use Rattle.change_code.specs.declared.format.Format.{Format};
ghost use Rattle.change_code.specs.Following.{IsFirst, IsBeginRead, IsFirstRead};

use crate::decoding::{closing_edc, format_of, opened};
use crate::fault::CodeFault;
use crate::format::Format;
use crate::reader::Reader;
use party_state::{Edit, State, first_state};
use std::alloc::Global;
use x_base::NoMemory;

impl<'a> Reader<'a> {
    /// The party that the next edit begins, if it begins one.
    fn begin_state(&mut self, alloc: Global) -> Result<Option<State>, NoMemory>
        ensures { IfOk result (λ state. IsBeginRead self.old self.new state) }
    {
        let edit = match self.edit(alloc) {
            Ok(edit) => edit,
            Err(CodeFault::Bad) => return Ok(None),
            Err(CodeFault::NoMemory) => return Err(NoMemory),
        };
        let Edit::Begin {
            own,
            role,
            generator,
        } = edit
        else {
            return Ok(None);
        };
        Ok(Some(first_state(alloc, own, role, generator)?))
    }

    /// The party that a change makes from nothing whose text all bytes are, if they are one.
    fn first_change(&mut self, alloc: Global) -> Result<Option<State>, NoMemory>
        ensures { IfOk result (λ state. IsFirstRead self.old state) }
    {
        let Some(n) = self.half_word() else {
            return Ok(None);
        };
        if n == 0 {
            return Ok(None);
        }
        let Some(mut state) = self.begin_state(alloc)? else {
            return Ok(None);
        };
        if self.follow_edits(alloc, n - 1, &mut state)? && self.is_empty() {
            Ok(Some(state))
        } else {
            Ok(None)
        }
    }
}

/// A party, and the format of its bodies.
#[derive(Drop)]
pub struct Begun {
    pub format: Format,
    pub state: State,
}

/// The party that the first body makes, and the format of that body, if it makes one. Each edit is done as it is read.
pub fn begin_party(alloc: Global, body: &[u8]) -> Result<Option<Begun>, NoMemory>
    ensures yes { IfOk result (λ begun. IfSome begun (λ b. IsFirst b.format body.now b.state)) }
    ensures no { IfOk result (λ begun. begun ≡ None → (format : Format) (party : Party) → IsFirst format body.now party → ⊥) }
{
    let Some(format) = format_of(body) else {
        return Ok(None);
    };
    let Some(text) = opened(format, body, closing_edc(format, body)) else {
        return Ok(None);
    };
    let Some(state) = Reader::new(text).first_change(alloc)? else {
        return Ok(None);
    };
    Ok(Some(Begun { format, state }))
}
