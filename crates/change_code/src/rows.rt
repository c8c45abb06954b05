// Reading links, key records and answers.
ghost use Rattle.change_code.specs.Reading.{IsPieceRead, link_form, key_form, answer_form};

use crate::reader::Reader;
use party_state::{Answer, KeyRec, LinkRec};

impl<'a> Reader<'a> {
    pub(crate) fn link(&mut self) -> Option<LinkRec>
        ensures { IsPieceRead link_form self.old self.new result }
    {
        let peer = self.ident()?;
        let label = self.label()?;
        let side = self.side()?;
        let pair = self.pair()?;
        let next = self.next_count()?;
        let ready = self.flag()?;
        Some(LinkRec {
            peer,
            label,
            side,
            pair,
            next,
            ready,
        })
    }

    pub(crate) fn key(&mut self) -> Option<KeyRec>
        ensures { IsPieceRead key_form self.old self.new result }
    {
        let peer = self.ident()?;
        let name = self.key_name()?;
        let value = self.word()?;
        let status = self.status()?;
        Some(KeyRec {
            peer,
            name,
            value,
            status,
        })
    }

    pub(crate) fn answer(&mut self) -> Option<Answer>
        ensures { IsPieceRead answer_form self.old self.new result }
    {
        let requester = self.ident()?;
        let ultimate = self.ident()?;
        let cta = self.count()?;
        let value = self.word()?;
        Some(Answer {
            requester,
            ultimate,
            cta,
            value,
        })
    }
}
