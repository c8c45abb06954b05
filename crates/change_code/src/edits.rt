// Reading edits.
ghost use Rattle.std.specs.Prelude.{◌≢◌, ◌∷◌};
ghost use Rattle.change_code.specs.Reading.{IsPieceRead, IsDecoded, edit_form};

use crate::fault::CodeFault;
use crate::reader::Reader;
use party_state::Edit;
use std::alloc::Global;

/// The kind of an edit that puts an exchange.
pub(crate) const PUT_EXCHANGE: u8 = 6;

impl<'a> Reader<'a> {
    pub(crate) fn edit(&mut self, alloc: Global) -> Result<Edit, CodeFault>
        ensures { IsDecoded edit_form self.old self.new result }
    {
        match self.byte() {
            None => Err(CodeFault::Bad),
            Some(PUT_EXCHANGE) => Ok(Edit::PutExchange(self.exchange(alloc)?)),
            Some(kind) => self.edit_of(kind).ok_or(CodeFault::Bad),
        }
    }

    /// An edit behind the byte of its kind, other than one that puts an exchange.
    pub(crate) fn edit_of(&mut self, kind: u8) -> Option<Edit>
        requires { kind ≢ 6 }
        ensures { IsPieceRead edit_form (kind ∷ self.old) self.new result }
    {
        match kind {
            1 => self.begin(),
            2 => Some(Edit::PutLink(self.link()?)),
            3 => self.drop_link(),
            4 => Some(Edit::PutKey(self.key()?)),
            5 => Some(Edit::DropEnded),
            7 => Some(Edit::DropExchange {
                peer: self.ident()?,
            }),
            8 => Some(Edit::PutAnswer(self.answer()?)),
            9 => Some(Edit::SetGen(self.word()?)),
            _ => None,
        }
    }

    fn begin(&mut self) -> Option<Edit>
        ensures { IsPieceRead edit_form (1 ∷ self.old) self.new result }
    {
        let own = self.ident()?;
        let role = self.role()?;
        let generator = self.generator()?;
        Some(Edit::Begin {
            own,
            role,
            generator,
        })
    }

    fn drop_link(&mut self) -> Option<Edit>
        ensures { IsPieceRead edit_form (3 ∷ self.old) self.new result }
    {
        let peer = self.ident()?;
        let label = self.label()?;
        let side = self.side()?;
        Some(Edit::DropLink { peer, label, side })
    }
}
