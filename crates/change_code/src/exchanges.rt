// Reading exchanges.
ghost use Rattle.std.specs.Prelude.{◌∷◌, MatchOption};
ghost use Rattle.change_code.specs.Reading.{IsPieceRead, IsDecoded, Lacks, StartsWith, text_form, via_form, kind_form, exchange_form};

use crate::fault::CodeFault;
use crate::reader::Reader;
use party_state::{Exchange, Kind, LONGEST_TEXT, Via};
use std::alloc::Global;
use x_base::{Ident, LIMIT, Text};

impl<'a> Reader<'a> {
    /// How a key was sent.
    fn via(&mut self) -> Option<Via>
        ensures { IsPieceRead via_form self.old self.new result }
    {
        match self.byte()? {
            1 => self.direct(),
            2 => self.distribution(),
            3 => Some(Via::Translation {
                centre: self.ident()?,
            }),
            _ => None,
        }
    }

    fn direct(&mut self) -> Option<Via>
        ensures { IsPieceRead via_form (1 ∷ self.old) self.new result }
    {
        let label = self.label()?;
        let new = self.maybe_label()?;
        Some(Via::Direct { label, new })
    }

    fn distribution(&mut self) -> Option<Via>
        ensures { IsPieceRead via_form (2 ∷ self.old) self.new result }
    {
        let centre = self.ident()?;
        let cta = self.count()?;
        Some(Via::Distribution { centre, cta })
    }

    /// What an exchange waits for.
    fn kind(&mut self) -> Option<Kind>
        ensures { IsPieceRead kind_form self.old self.new result }
    {
        match self.byte()? {
            1 => Some(Kind::Asked {
                ultimate: self.ident()?,
            }),
            2 => self.translating(),
            3 => self.key_sent(),
            4 => Some(Kind::Ending {
                name: self.key_name()?,
            }),
            5 => self.pair_sent(),
            _ => None,
        }
    }

    fn translating(&mut self) -> Option<Kind>
        ensures { IsPieceRead kind_form (2 ∷ self.old) self.new result }
    {
        let ultimate = self.ident()?;
        let value = self.word()?;
        let cta = self.count()?;
        Some(Kind::Translating {
            ultimate,
            value,
            cta,
        })
    }

    fn key_sent(&mut self) -> Option<Kind>
        ensures { IsPieceRead kind_form (3 ∷ self.old) self.new result }
    {
        let name = self.key_name()?;
        let via = self.via()?;
        Some(Kind::KeySent { name, via })
    }

    fn pair_sent(&mut self) -> Option<Kind>
        ensures { IsPieceRead kind_form (5 ∷ self.old) self.new result }
    {
        let name = self.key_name()?;
        if name.count.value() < LIMIT {
            Some(Kind::PairSent { name })
        } else {
            None
        }
    }

    fn text(&mut self) -> Option<&'a [u8]>
        ensures { MatchOption result (Lacks text_form self.old) (λ text. StartsWith text_form self.old self.new text.now) }
    {
        let text = self.long()?;
        if text.len() <= LONGEST_TEXT {
            Some(text)
        } else {
            None
        }
    }

    /// An exchange's peer, kind and text.
    fn exchange_parts(&mut self) -> Option<(Ident, Kind, &'a [u8])>
        ensures { MatchOption result (Lacks exchange_form self.old)
            (λ p. StartsWith exchange_form self.old self.new (record { peer = p.0; kind = p.1; text = p.2.now })) }
    {
        let peer = self.ident()?;
        let kind = self.kind()?;
        let text = self.text()?;
        Some((peer, kind, text))
    }

    pub(crate) fn exchange(&mut self, alloc: Global) -> Result<Exchange, CodeFault>
        ensures { IsDecoded exchange_form self.old self.new result }
    {
        let Some((peer, kind, bytes)) = self.exchange_parts() else {
            return Err(CodeFault::Bad);
        };
        let mut text = Text::with_capacity(alloc, bytes.len())?;
        text.push(bytes)?;
        Ok(Exchange { peer, kind, text })
    }
}
