// Reading the code of a change.
ghost use Rattle.std.specs.Prelude.{◌≡◌, ◌∷◌, ℕ, List, None, IfOk, IfErr, IfSome};
ghost use Rattle.change_code.specs.declared.format.Format.{Format};
ghost use Rattle.party_state.specs.declared.edit.Edit.{Edit};
ghost use Rattle.change_code.specs.Code.{number_of, closed, IsClosingEdc, IsCode, IsNoCode};
ghost use Rattle.change_code.specs.Reading.{IsDecoded, IsAllRead, edits_form, change_form};

use crate::fault::CodeFault;
use crate::format::Format;
use crate::pieces::code_of;
use crate::reader::Reader;
use party_state::Change;
use std::alloc::Global;
use x_mac::edc;

impl<'a> Reader<'a> {
    /// So many edits.
    fn edits(&mut self, alloc: Global, n: u16) -> Result<Change, CodeFault>
        ensures { IsDecoded (edits_form n) self.old self.new result }
    {
        let mut change = Change::with_capacity(alloc, usize::from(n).min(self.len()))?;
        'reading: for _ in 0..n {
            let edit = self.edit(alloc)?;
            change.push(edit)?;
        }
        Ok(change)
    }

    /// A change, which all bytes are.
    fn change(&mut self, alloc: Global) -> Result<Change, CodeFault>
        ensures { IsAllRead change_form self.old result }
    {
        let Some(n) = self.half_word() else {
            return Err(CodeFault::Bad);
        };
        let change = self.edits(alloc, n)?;
        if self.is_empty() {
            Ok(change)
        } else {
            Err(CodeFault::Bad)
        }
    }
}

/// The text that is closed in this format, if the bytes are one. `edc` is, in format 2, the error detection code of all bytes but
/// the last four.
fn closed_text(format: Format, bytes: &[u8], edc: u32) -> Option<&[u8]>
    requires { IsClosingEdc format bytes.now edc }
    ensures text { IfSome result (λ text. bytes.now ≡ closed format text.now) }
    ensures none { result ≡ None → (text : List ℕ) → bytes.now ≡ closed format text → ⊥ }
{
    match format {
        Format::One => Some(bytes),
        Format::Two => {
            let (text, end) = bytes.split_last_chunk::<4>()?;
            if edc == code_of(end) {
                Some(text)
            } else {
                None
            }
        }
    }
}

/// The text behind the number of the format, if the bytes are one that is closed in it.
pub(crate) fn opened(format: Format, bytes: &[u8], edc: u32) -> Option<&[u8]>
    requires { IsClosingEdc format bytes.now edc }
    ensures text { IfSome result (λ text. bytes.now ≡ closed format (number_of format ∷ text.now)) }
    ensures none { result ≡ None → (text : List ℕ) → bytes.now ≡ closed format (number_of format ∷ text) → ⊥ }
{
    let (number, text) = closed_text(format, bytes, edc)?.split_first()?;
    if *number == format.number() {
        Some(text)
    } else {
        None
    }
}

/// The change whose code in this format the bytes are. `edc` is, in format 2, the error detection code of all bytes but the last
/// four; in format 1 it isn't looked at. Comes with `Bad` exactly where they are no code in this format.
fn decode_as(alloc: Global, format: Format, bytes: &[u8], edc: u32) -> Result<Change, CodeFault>
    requires { IsClosingEdc format bytes.now edc }
    ensures code { IfOk result (λ change. IsCode format bytes.now change) }
    ensures bad { IfErr result (λ fault. fault ≡ CodeFault.Bad → (change : List Edit) → IsCode format bytes.now change → ⊥) }
{
    let Some(text) = opened(format, bytes, edc) else {
        return Err(CodeFault::Bad);
    };
    Reader::new(text).change(alloc)
}

/// The one format in which the bytes can be a code, by the number with which they begin.
pub(crate) fn format_of(bytes: &[u8]) -> Option<Format>
    ensures is { IfSome result (λ format. (other : Format) (change : List Edit) → IsCode other bytes.now change → format ≡ other) }
    ensures none { result ≡ None → IsNoCode bytes.now }
{
    Format::of(*bytes.first()?)
}

/// In format 2, the error detection code of all bytes but the last four; in format 1 nothing.
pub(crate) fn closing_edc(format: Format, bytes: &[u8]) -> u32
    ensures { IsClosingEdc format bytes.now result }
{
    match format {
        Format::One => 0,
        Format::Two => edc(&bytes[..bytes.len().saturating_sub(4)]),
    }
}

/// A change, and the format of its code.
#[derive(Drop)]
pub struct Coded {
    pub format: Format,
    pub change: Change,
}

/// The change whose code the bytes are, in whatever format. Comes with `Bad` exactly where they are a code in neither.
pub fn decode(alloc: Global, bytes: &[u8]) -> Result<Coded, CodeFault>
    ensures code { IfOk result (λ coded. IsCode coded.format bytes.now coded.change) }
    ensures bad { IfErr result (λ fault. fault ≡ CodeFault.Bad → IsNoCode bytes.now) }
{
    let Some(format) = format_of(bytes) else {
        return Err(CodeFault::Bad);
    };
    let edc = closing_edc(format, bytes);
    let change = decode_as(alloc, format, bytes, edc)?;
    Ok(Coded { format, change })
}
