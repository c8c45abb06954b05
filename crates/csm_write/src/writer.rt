// Fields, each by the kind of its contents. Behind each stands one blank.
ghost use Rattle.std.specs.Prelude.{◌≡◌, ◌≤◌, ◌++◌, ◌∷◌, [], ℕ, codes, length, OnOk, IfOk};
ghost use Rattle.x_base.specs.KeyName.{written};
ghost use Rattle.csm_grammar.specs.declared.tag.Tag.TheVariants.{Svr, DoubleKk, Erf};
ghost use Rattle.csm_grammar.specs.Values.{kind_of, service_text};
ghost use Rattle.csm_grammar.specs.Values.Value.{AText, AName, AService, ANumber, APair};
ghost use Rattle.csm_grammar.specs.Values.Kind.{OfIdent, OfName, OfLabel, OfKey, OfCount, OfText};
ghost use Rattle.csm_grammar.specs.Messages.{valued, shut_field};
ghost use Rattle.csm_grammar.specs.Spelling.{field_text};
ghost use Rattle.csm_write.specs.Canon.{field_for, code_digits};
ghost use Rattle.csm_write.specs.Writable.{IsTypedField};
ghost use Rattle.x_base.specs.KeyName.{IsKeyName};
ghost use Rattle.csm_write.specs.Writing.{Adds};

use crate::digits::{code_digits, key_digits};
use crate::field_text::FieldText;
use csm_grammar::{Service, Shut, Tag};
use itoa::Buffer;
use std::alloc::Global;
use std::marker::Model;
use x_base::{Count, Ident, KeyName, Label, NoMemory, Text};

/// The bytes for which a text has room from the start: those of most messages without IV, EDK and P.
const ROOM: usize = 128;

/// How long the contents of a field are that is put together before it goes into the text.
const SHORT: usize = 32;

/// A text that is being written.
#[derive(Drop)]
pub struct Writer {
    text: Text,
}

impl Model for Writer {
    ghost use Rattle.std.specs.Prelude.{ℕ, List};

    ghost Value = { List ℕ };

    ghost view = { λ w. w.text };
}

fn service_text(service: Service) -> &'static [u8]
    ensures { result.now ≡ service_text service }
{
    match service {
        Service::Kd => b"KD",
        Service::KdKd => b"KD.KD",
        Service::Kk => b"KK",
        Service::DoubleKk => b"*KK",
        Service::KkKd => b"KK.KD",
        Service::DoubleKkKd => b"*KK.KD",
    }
}

impl Writer {
    pub fn new(alloc: Global) -> Result<Writer, NoMemory>
        ensures { IfOk result (λ w. w ≡ []) }
    {
        let text = Text::with_capacity(alloc, ROOM)?;
        Ok(Writer { text })
    }

    pub fn push(&mut self, bytes: &[u8]) -> Result<(), NoMemory>
        ensures { OnOk result (self.new ≡ self.old ++ bytes.now) }
    {
        self.text.push(bytes)
    }

    pub fn bytes(&self) -> &[u8]
        ensures { result.now ≡ self.now }
    {
        self.text.bytes()
    }

    pub fn into_text(self) -> Text
        ensures { result ≡ self }
    {
        self.text
    }

    fn tag(&mut self, tag: Tag) -> Result<(), NoMemory>
        ensures { OnOk result (self.new ≡ self.old ++ (field_text (record { tag = tag; contents = [] }))) }
    {
        self.push(FieldText::begin(tag).bytes())
    }

    fn field(&mut self, tag: Tag, contents: &[u8]) -> Result<(), NoMemory>
        ensures { OnOk result (self.new ≡ self.old ++ (field_text (record { tag = tag; contents = contents.now }) ++ codes " ")) }
    {
        if contents.len() <= SHORT {
            self.short_field(tag, contents)
        } else {
            self.tag(tag)?;
            self.push(contents)?;
            self.push(b" ")
        }
    }

    fn short_field(&mut self, tag: Tag, contents: &[u8]) -> Result<(), NoMemory>
        requires { length contents.now ≤ 32 }
        ensures { OnOk result (self.new ≡ self.old ++ (field_text (record { tag = tag; contents = contents.now }) ++ codes " ")) }
    {
        let mut field = FieldText::begin(tag);
        field.put(contents);
        field.put(b" ");
        self.push(field.bytes())
    }

    pub fn ident(&mut self, tag: Tag, ident: &Ident) -> Result<(), NoMemory>
        requires { kind_of tag ≡ OfIdent }
        ensures { OnOk result (Adds self.old self.new (valued tag (AText ident.now) ∷ [])) }
    {
        self.field(tag, ident.bytes())
    }

    pub fn label(&mut self, tag: Tag, label: &Label) -> Result<(), NoMemory>
        requires { kind_of tag ≡ OfLabel }
        ensures { OnOk result (Adds self.old self.new (valued tag (AText label.now) ∷ [])) }
    {
        self.field(tag, label.bytes())
    }

    pub fn name(&mut self, tag: Tag, name: &KeyName) -> Result<(), NoMemory>
        requires { kind_of tag ≡ OfName }
        ensures { OnOk result (Adds self.old self.new (valued tag (AName name.now) ∷ [])) }
    {
        self.tag(tag)?;
        self.name_text(name)?;
        self.push(b" ")
    }

    fn name_text(&mut self, name: &KeyName) -> Result<(), NoMemory>
        ensures text { OnOk result (self.new ≡ self.old ++ written name.now) }
        ensures name { IsKeyName name.now }
    {
        name.write(&mut self.text)
    }

    pub fn service(&mut self, service: Service) -> Result<(), NoMemory>
        ensures { OnOk result (Adds self.old self.new (valued Svr (AService service) ∷ [])) }
    {
        self.field(Tag::Svr, service_text(service))
    }

    /// A count in decimal digits without leading zeros.
    pub fn count(&mut self, tag: Tag, count: &Count) -> Result<(), NoMemory>
        requires { kind_of tag ≡ OfCount }
        ensures { OnOk result (Adds self.old self.new (valued tag (ANumber count.now) ∷ [])) }
    {
        let mut digits = Buffer::new();
        self.field(tag, digits.format(count.value()).as_bytes())
    }

    /// A key in 16 hexadecimal digits.
    pub fn key(&mut self, tag: Tag, key: u64) -> Result<(), NoMemory>
        requires { kind_of tag ≡ OfKey }
        ensures { OnOk result (Adds self.old self.new (valued tag (ANumber key) ∷ [])) }
    {
        self.short_field(tag, &key_digits(key))
    }

    /// The halves of a double-length key, the left one first.
    pub fn pair(&mut self, left: u64, right: u64) -> Result<(), NoMemory>
        ensures { OnOk result (Adds self.old self.new (valued DoubleKk (APair left right) ∷ [])) }
    {
        let mut field = FieldText::begin(Tag::DoubleKk);
        field.put(&key_digits(left));
        field.put(&key_digits(right));
        field.put(b" ");
        self.push(field.bytes())
    }

    pub fn reason(&mut self, reason: &Text) -> Result<(), NoMemory>
        ensures { OnOk result (Adds self.old self.new (valued Erf (AText reason.now) ∷ [])) }
    {
        self.field(Tag::Erf, reason.bytes())
    }

    /// Contents that are kept and not interpreted.
    pub fn text(&mut self, tag: Tag, text: &Text) -> Result<(), NoMemory>
        requires { kind_of tag ≡ OfText }
        ensures { OnOk result (Adds self.old self.new (valued tag (AText text.now) ∷ [])) }
    {
        self.field(tag, text.bytes())
    }

    /// The code in 8 hexadecimal digits, with no blank behind it.
    pub fn code(&mut self, shut: Shut) -> Result<(), NoMemory>
        ensures text { OnOk result (self.new ≡ self.old ++ field_text (field_for (shut_field shut))) }
        ensures typed { IsTypedField (shut_field shut) }
    {
        match shut {
            Shut::Mac(code) => self.code_field(Tag::Mac, code),
            Shut::Edc(code) => self.code_field(Tag::Edc, code),
        }
    }

    fn code_field(&mut self, tag: Tag, code: u32) -> Result<(), NoMemory>
        ensures { OnOk result (self.new ≡ self.old ++ field_text (record { tag = tag; contents = code_digits code })) }
    {
        let mut field = FieldText::begin(tag);
        field.put(&code_digits(code));
        self.push(field.bytes())
    }
}
