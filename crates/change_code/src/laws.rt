// What holds of every code.
ghost use Rattle.std.specs.Prelude.{◌≡◌, ◌+◌, ◌*◌, ◌≤◌, ℕ, true, false, List, length, IfOk};
ghost use Rattle.party_state.specs.declared.edit.Edit.{Edit};
ghost use Rattle.party_state.specs.Limits.{IsWithinLimits, StaysWithinLimits};
ghost use Rattle.party_state.specs.Ranges.{AreFitting, HasNoBegin, IsParty};
ghost use Rattle.party_state.specs.State.{Party, apply, begun};
ghost use Rattle.change_code.specs.declared.format.Format.{Format};
ghost use Rattle.change_code.specs.Code.{code_of_change, IsCode, most_edits, head_length, longest_edit, end_length, longest_end};
ghost use Rattle.change_code.specs.Cost.{can_compact};
ghost use Rattle.change_code.specs.Whole.{row_edits, IsTooLarge};

use crate::decoding::{Coded, decode};
use crate::encoding::encode_behind;
use crate::fault::CodeFault;
use crate::format::Format;
use party_state::Change;
use std::alloc::Global;
use x_base::NoMemory;

/// Bytes are the code of one change only, in one format.
#[tactic(auto, using(crate::proofs::Changes::one_change))]
pub fn law_one_change()
    ensures { (format other : Format) (bytes : List ℕ) (first second : List Edit) → IsCode format bytes first → IsCode other bytes second → (format ≡ other) × (first ≡ second) }
{}

/// A change has one code only in a format.
#[tactic(auto, using(crate::proofs::Changes::one_code))]
pub fn law_one_code()
    ensures { (format : Format) (first second : List ℕ) (edits : List Edit) → IsCode format first edits → IsCode format second edits → first ≡ second }
{}

/// The code of a change has at most 3 bytes, 1,200 for each edit, and in format 2 four more. It does nothing.
#[tactic(auto, using(crate::proofs::Lengths::short_code, crate::proofs::Closings::short_end))]
pub fn law_short_code(format: Format, change: &Change)
    requires { AreFitting change.now }
    ensures code { length (code_of_change format change.now) ≤ head_length + longest_edit * length change.now + end_length format }
    ensures end { end_length format ≤ longest_end }
{
    change.law_in_range();
}

/// A party is made anew by the puts of its rows behind the edit that begins it: none of them begins another, and they
/// pass no limit that it keeps.
#[tactic(auto, using(crate::proofs::Anew::anew, crate::proofs::Anew::rows_stay, crate::proofs::Anew::rows_go_on))]
pub fn law_whole()
    ensures anew { (p : Party) → IsParty p → apply (row_edits p) (begun p.own p.role p.generator) ≡ p }
    ensures within { (p : Party) → IsParty p → IsWithinLimits p → StaysWithinLimits (row_edits p) (begun p.own p.role p.generator) }
    ensures goes_on { (p : Party) → HasNoBegin (row_edits p) }
{}

/// A party can be kept as one change in a format exactly where it isn't too large for one.
#[tactic(auto, using(crate::proofs::Sizes::small_enough, crate::proofs::Sizes::too_large))]
pub fn law_can_compact()
    ensures fits { (format : Format) (p : Party) → can_compact format p ≡ true → IsTooLarge format p → ⊥ }
    ensures too_large { (format : Format) (p : Party) → can_compact format p ≡ false → IsTooLarge format p }
{}

/// Decoding the code of a change gives back an equal change and its format.
#[tactic(auto, using(crate::proofs::Undoing::undone, crate::proofs::Undoing::never_bad))]
pub fn law_decode_undoes(alloc: Global, format: Format, change: &Change) -> Result<Coded, NoMemory>
    requires few { length change.now ≤ most_edits }
    requires fitting { AreFitting change.now }
    ensures format { IfOk result (λ back. back.format ≡ format) }
    ensures change { IfOk result (λ back. back.change ≡ change.now) }
{
    let code = encode_behind(alloc, &[], format, change)?;
    match decode(alloc, code.bytes()) {
        Ok(back) => Ok(back),
        Err(CodeFault::NoMemory) => Err(NoMemory),
        Err(CodeFault::Bad) => unreachable!(),
    }
}
