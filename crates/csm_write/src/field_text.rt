// A field that is put together before it goes into a text.
ghost use Rattle.std.specs.Prelude.{◌≡◌, ◌≤◌, ◌+◌, ◌++◌, [], length};
ghost use Rattle.csm_grammar.specs.Spelling.{field_text};

use csm_grammar::Tag;
use std::marker::Model;

/// How many bytes it holds: those of the longest field without a name and without a free text, and more.
const ROOM: usize = 40;

/// Up to 40 bytes.
#[derive(Drop)]
pub struct FieldText {
    bytes: [u8; ROOM],
    len: usize,
}

impl Model for FieldText {
    ghost use Rattle.std.specs.Prelude.{◌≤◌, ℕ, List, take};

    ghost Value = { List ℕ };

    ghost view = { λ f. take f.len f.bytes };

    ghost invariant = { λ f. f.len ≤ 40 };
}

impl FieldText {
    /// The tag and the slash behind it.
    #[tactic(auto, using(crate::proofs::Tags::tag_short))]
    pub fn begin(tag: Tag) -> FieldText
        ensures text { result ≡ field_text (record { tag = tag; contents = [] }) }
        ensures short { length result ≤ 5 }
    {
        let mut field = FieldText {
            bytes: [0; ROOM],
            len: 0,
        };
        field.put(tag.name());
        field.put(b"/");
        field
    }

    /// Appends the bytes.
    pub fn put(&mut self, bytes: &[u8])
        requires { length self.old + length bytes.now ≤ 40 }
        ensures { self.new ≡ self.old ++ bytes.now }
    {
        let end = self.len + bytes.len();
        self.bytes[self.len..end].copy_from_slice(bytes);
        self.len = end;
    }

    pub fn bytes(&self) -> &[u8]
        ensures { result.now ≡ self.now }
    {
        &self.bytes[..self.len]
    }
}
