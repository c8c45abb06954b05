ghost use Rattle.std.specs.Prelude.{◌≡◌};
ghost use Rattle.csm_grammar.specs.Classes.{need_of, times};
ghost use Rattle.csm_grammar.specs.Letters.{table, entry};

use crate::class_rows::TABLE;
use crate::form::{Form, Need};
use crate::tag::Tag;

/// What each form says of each tag, in `N` letters.
#[derive(Clone, Copy)]
pub struct ClassTable<const N: usize> {
    entries: [u8; N],
    ghost stands: { entries ≡ table },
}

/// The table of the thirteen forms and the 27 tags: the sets of tags are this project's profile.
#[tactic(auto, unfolding(crate::specs::Letters::table))]
pub fn class_table() -> ClassTable<351> {
    ClassTable { entries: TABLE }
}

impl ClassTable<351> {
    /// The letter of the entry.
    fn letter(&self, form: Form, tag: Tag) -> u8
        ensures { result ≡ entry form tag }
    {
        self.entries[27 * form as usize + tag as usize]
    }

    /// What the form says of the tag.
    pub fn need(&self, form: Form, tag: Tag) -> Need
        ensures { result ≡ need_of form tag }
    {
        match self.letter(form, tag) {
            b'R' | b'T' => Need::Required,
            b'O' => Need::Optional,
            _ => Need::Refused,
        }
    }

    /// How often a message of the form has the tag at most: 0, 1, or 2 for KD in the form with two data
    /// keys.
    pub fn times(&self, form: Form, tag: Tag) -> u8
        ensures { result ≡ times form tag }
    {
        match self.letter(form, tag) {
            b'T' => 2,
            b'X' => 0,
            _ => 1,
        }
    }
}
