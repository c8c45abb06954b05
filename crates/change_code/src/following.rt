// Doing the edits of a code as they are read.
ghost use Rattle.std.specs.Prelude.{◌≡◌, ◌≢◌, ◌∷◌, ◌↔◌, true, false, IfOk, IsTrue};
ghost use Rattle.party_state.specs.Limits.{IsWithinLimits};
ghost use Rattle.party_state.specs.State.{Party};
ghost use Rattle.change_code.specs.Code.{IsClosingEdc};
ghost use Rattle.change_code.specs.Following.{IsStep, IsEditFollowed, AreEditsFollowed, IsChangeFollowed};

use crate::decoding::opened;
use crate::edits::PUT_EXCHANGE;
use crate::fault::CodeFault;
use crate::format::Format;
use crate::reader::Reader;
use party_state::{Edit, MOST_KEYS, MOST_LINKS, State};
use std::alloc::Global;
use x_base::NoMemory;

/// Whether the party passes no limit.
fn is_within(state: &State) -> bool
    ensures { IsTrue result ↔ IsWithinLimits state.now }
{
    state.link_count() <= MOST_LINKS && state.key_count() <= MOST_KEYS
}

// An edit behind the byte of its kind.
impl<'a> Reader<'a> {
    fn follow_link(&mut self, state: &mut State) -> Result<bool, NoMemory>
        ensures { IfOk result (λ goes. IsEditFollowed (2 ∷ self.old) self.new state.old state.new goes) }
    {
        let Some(link) = self.link() else {
            return Ok(false);
        };
        state.put_link(link)?;
        Ok(is_within(state))
    }

    fn follow_key(&mut self, state: &mut State) -> Result<bool, NoMemory>
        ensures { IfOk result (λ goes. IsEditFollowed (4 ∷ self.old) self.new state.old state.new goes) }
    {
        let Some(key) = self.key() else {
            return Ok(false);
        };
        state.put_key(key)?;
        Ok(is_within(state))
    }

    fn follow_exchange(&mut self, alloc: Global, state: &mut State) -> Result<bool, NoMemory>
        ensures { IfOk result (λ goes. IsEditFollowed (6 ∷ self.old) self.new state.old state.new goes) }
    {
        match self.exchange(alloc) {
            Ok(exchange) => {
                state.put_exchange(exchange)?;
                Ok(is_within(state))
            }
            Err(CodeFault::Bad) => Ok(false),
            Err(CodeFault::NoMemory) => Err(NoMemory),
        }
    }

    fn follow_drop(&mut self, state: &mut State) -> Result<bool, NoMemory>
        ensures { IfOk result (λ goes. IsEditFollowed (7 ∷ self.old) self.new state.old state.new goes) }
    {
        let Some(peer) = self.ident() else {
            return Ok(false);
        };
        state.drop_exchange(&peer);
        Ok(is_within(state))
    }

    fn follow_seed(&mut self, state: &mut State) -> Result<bool, NoMemory>
        ensures { IfOk result (λ goes. IsEditFollowed (9 ∷ self.old) self.new state.old state.new goes) }
    {
        let Some(v) = self.word() else {
            return Ok(false);
        };
        state.set_seed(v);
        Ok(is_within(state))
    }

    /// Any edit but one that puts an exchange.
    fn follow_other(&mut self, kind: u8, state: &mut State) -> Result<bool, NoMemory>
        requires { kind ≢ 6 }
        ensures { IfOk result (λ goes. IsEditFollowed (kind ∷ self.old) self.new state.old state.new goes) }
    {
        match self.edit_of(kind) {
            None | Some(Edit::Begin { .. }) => Ok(false),
            Some(edit) => {
                state.edit(edit)?;
                Ok(is_within(state))
            }
        }
    }
}

impl<'a> Reader<'a> {
    /// Does the next edit; false if there is none that may stand here.
    fn follow_edit(&mut self, alloc: Global, state: &mut State) -> Result<bool, NoMemory>
        ensures { IfOk result (λ goes. IsEditFollowed self.old self.new state.old state.new goes) }
    {
        match self.byte() {
            None => Ok(false),
            Some(2) => self.follow_link(state),
            Some(4) => self.follow_key(state),
            Some(PUT_EXCHANGE) => self.follow_exchange(alloc, state),
            Some(7) => self.follow_drop(state),
            Some(9) => self.follow_seed(state),
            Some(kind) => self.follow_other(kind, state),
        }
    }

    /// Does so many edits; false if there aren't so many that may stand here.
    pub(crate) fn follow_edits(
        &mut self,
        alloc: Global,
        n: u16,
        state: &mut State,
    ) -> Result<bool, NoMemory>
        ensures { IfOk result (λ goes. AreEditsFollowed n self.old self.new state.old state.new goes) }
    {
        'following: for _ in 0..n {
            if !self.follow_edit(alloc, state)? {
                return Ok(false);
            }
        }
        Ok(true)
    }

    /// Does the edits of the change whose text all bytes are; false if they are no text of a change that may stand here.
    fn follow_change(&mut self, alloc: Global, state: &mut State) -> Result<bool, NoMemory>
        ensures { IfOk result (λ goes. IsChangeFollowed self.old state.old state.new goes) }
    {
        let Some(n) = self.half_word() else {
            return Ok(false);
        };
        if self.follow_edits(alloc, n, state)? {
            Ok(self.is_empty())
        } else {
            Ok(false)
        }
    }
}

/// Does the edits of the change whose code in this format the bytes are, each as it is read. True comes exactly where the bytes
/// are the code in this format of a change of which no edit begins another party and none passes a limit. With false, and where
/// no memory is left, the party may be after some of the edits. `edc` is, in format 2, the error detection code of all bytes but
/// the last four; in format 1 it isn't looked at.
pub fn follow_as(
    alloc: Global,
    format: Format,
    bytes: &[u8],
    edc: u32,
    state: &mut State,
) -> Result<bool, NoMemory>
    requires { IsClosingEdc format bytes.now edc }
    ensures yes { IfOk result (λ goes. goes ≡ true → IsStep format bytes.now state.old state.new) }
    ensures no { IfOk result (λ goes. goes ≡ false → (p : Party) → IsStep format bytes.now state.old p → ⊥) }
{
    match opened(format, bytes, edc) {
        Some(text) => Reader::new(text).follow_change(alloc, state),
        None => Ok(false),
    }
}
