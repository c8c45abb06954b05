// The end of a message.
ghost use Rattle.std.specs.Prelude.{◌≡◌, ◌<◌, List, true, false, IsSome};
ghost use Rattle.csm_grammar.specs.declared.tag.Tag.TheVariants.{Mac, Edc};
ghost use Rattle.csm_grammar.specs.Spelling.{Field, tags_in, message_limit};
ghost use Rattle.csm_read.specs.Faults.{forms_left, missing_of};
ghost use Rattle.csm_read.specs.Slotting.{came, Keeps};
ghost use Rattle.csm_read.specs.Building.{AreSound, IsCodeIn, Ends};
ghost use Rattle.csm_read.specs.Denoting.{value_at};

use crate::fields::Fields;
use csm_grammar::{FormSet, Parsed, ReadRefusal, Shut, Tag};
use std::alloc::Global;

impl Fields<'_> {
    /// The code that came.
    fn shut(&self) -> Shut
        requires mac { came self.now.slots Mac ≡ true → IsSome (value_at self.now.slots Mac) }
        requires edc { came self.now.slots Mac ≡ false → IsSome (value_at self.now.slots Edc) }
        ensures { IsCodeIn self.now.slots result }
    {
        if self.has(Tag::Mac) {
            Shut::Mac(self.code(Tag::Mac))
        } else {
            Shut::Edc(self.code(Tag::Edc))
        }
    }

    /// The tag that is missing where `)` comes before a code.
    fn missing_tag(&self) -> Tag
        ensures { (fs : List Field) → Keeps self.now.slots self.now.left.bits fs → result ≡ missing_of (forms_left fs (tags_in fs)) (tags_in fs) }
    {
        self.missing_at_end()
    }

    /// The answer where `)` stands at a place, and the last token at another.
    pub fn end(&self, alloc: Global, last: usize, place: usize) -> Result<Parsed, ReadRefusal>
        requires sound { (fs : List Field) × AreSound self.now.slots self.now.left.bits fs }
        requires place { place < message_limit }
        ensures { (fs : List Field) → AreSound self.now.slots self.now.left.bits fs → Ends fs place last result }
    {
        if !self.is_closed() {
            return Err(ReadRefusal::Missing(self.missing_tag(), place as u64));
        }
        let form = FormSet::FORMS
            .iter()
            .copied()
            .find(|form| self.is_whole(self.left, *form))
            .unwrap();
        match self.message(alloc, form) {
            Ok(message) => Ok(Parsed {
                message,
                shut: self.shut(),
                auth_len: last,
                len: place + 1,
            }),
            Err(_) => Err(ReadRefusal::NoMemory),
        }
    }
}
