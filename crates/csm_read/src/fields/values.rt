// The values of the fields that came, by tag.
ghost use Rattle.std.specs.Prelude.{◌≡◌, ◌||◌, IsSome, IfOk, option_map};
ghost use Rattle.csm_grammar.specs.declared.tag.Tag.TheVariants.{Erf, DoubleKk, Iv, Edk, P};
ghost use Rattle.csm_grammar.specs.Values.{kind_of};
ghost use Rattle.csm_grammar.specs.Values.Value.{AText, AName, AService, ANumber, APair};
ghost use Rattle.csm_grammar.specs.Values.Kind.{OfIdent, OfService, OfName, OfLabel, OfKey, OfCount, OfText, OfCode};
ghost use Rattle.csm_read.specs.Building.{AreExtras};
ghost use Rattle.csm_read.specs.Denoting.{value_at, second_value};
ghost use Rattle.csm_read.specs.Slotting.{came};

use crate::fields::Fields;
use csm_grammar::{Extras, Service, Tag, contents};
use std::alloc::Global;
use x_base::{Count, Ident, KeyName, Label, NoMemory, Text};

fn copied(alloc: Global, bytes: &[u8]) -> Result<Text, NoMemory>
    ensures { IfOk result (λ t. t ≡ bytes.now) }
{
    let mut text = Text::new(alloc);
    text.push(bytes)?;
    Ok(text)
}

impl Fields<'_> {
    pub fn ident_if_any(&self, tag: Tag) -> Option<Ident>
        requires { kind_of tag ≡ OfIdent }
        ensures { option_map AText result ≡ value_at self.now.slots tag }
    {
        contents::ident(self.get(tag)?)
    }

    pub fn label_if_any(&self, tag: Tag) -> Option<Label>
        requires { kind_of tag ≡ OfLabel }
        ensures { option_map AText result ≡ value_at self.now.slots tag }
    {
        contents::label(self.get(tag)?)
    }

    pub fn name_if_any(&self, tag: Tag) -> Option<KeyName>
        requires { kind_of tag ≡ OfName }
        ensures { option_map AName result ≡ value_at self.now.slots tag }
    {
        contents::name(self.get(tag)?)
    }

    pub fn count_if_any(&self, tag: Tag) -> Option<Count>
        requires { kind_of tag ≡ OfCount }
        ensures { option_map ANumber result ≡ value_at self.now.slots tag }
    {
        contents::count(self.get(tag)?)
    }

    pub fn ident(&self, tag: Tag) -> Ident
        requires kind { kind_of tag ≡ OfIdent }
        requires present { IsSome (value_at self.now.slots tag) }
        ensures { value_at self.now.slots tag ≡ Some (AText result) }
    {
        self.ident_if_any(tag).unwrap()
    }

    pub fn label(&self, tag: Tag) -> Label
        requires kind { kind_of tag ≡ OfLabel }
        requires present { IsSome (value_at self.now.slots tag) }
        ensures { value_at self.now.slots tag ≡ Some (AText result) }
    {
        self.label_if_any(tag).unwrap()
    }

    pub fn name(&self, tag: Tag) -> KeyName
        requires kind { kind_of tag ≡ OfName }
        requires present { IsSome (value_at self.now.slots tag) }
        ensures { value_at self.now.slots tag ≡ Some (AName result) }
    {
        self.name_if_any(tag).unwrap()
    }

    pub fn count(&self, tag: Tag) -> Count
        requires kind { kind_of tag ≡ OfCount }
        requires present { IsSome (value_at self.now.slots tag) }
        ensures { value_at self.now.slots tag ≡ Some (ANumber result) }
    {
        Count::of(self.number(tag)).unwrap()
    }

    pub fn service_if_any(&self, tag: Tag) -> Option<Service>
        requires { kind_of tag ≡ OfService }
        ensures { option_map AService result ≡ value_at self.now.slots tag }
    {
        contents::service(self.get(tag)?)
    }

    pub fn service(&self, tag: Tag) -> Service
        requires kind { kind_of tag ≡ OfService }
        requires present { IsSome (value_at self.now.slots tag) }
        ensures { value_at self.now.slots tag ≡ Some (AService result) }
    {
        self.service_if_any(tag).unwrap()
    }

    pub fn key(&self, tag: Tag) -> u64
        requires kind { kind_of tag ≡ OfKey }
        requires present { IsSome (value_at self.now.slots tag) }
        ensures { value_at self.now.slots tag ≡ Some (ANumber result) }
    {
        self.number(tag)
    }

    /// The second of two data keys.
    pub fn second_key(&self) -> u64
        requires { IsSome (second_value self.now.slots) }
        ensures { second_value self.now.slots ≡ Some (ANumber result) }
    {
        self.second_number()
    }

    pub fn code(&self, tag: Tag) -> u32
        requires kind { kind_of tag ≡ OfCode }
        requires present { IsSome (value_at self.now.slots tag) }
        ensures { value_at self.now.slots tag ≡ Some (ANumber result) }
    {
        self.number(tag) as u32
    }

    fn pair_if_any(&self) -> Option<(u64, u64)>
        ensures { option_map (λ p. APair p.0 p.1) result ≡ value_at self.now.slots DoubleKk }
    {
        contents::pair(self.get(Tag::DoubleKk)?)
    }

    pub fn pair(&self) -> (u64, u64)
        requires { IsSome (value_at self.now.slots DoubleKk) }
        ensures { value_at self.now.slots DoubleKk ≡ Some (APair result.0 result.1) }
    {
        self.pair_if_any().unwrap()
    }

    fn reason_if_any(&self) -> Option<&[u8]>
        ensures { option_map (λ x. AText x.now) result ≡ value_at self.now.slots Erf }
    {
        contents::reason(self.get(Tag::Erf)?)
    }

    pub fn reason(&self, alloc: Global) -> Result<Text, NoMemory>
        requires { IsSome (value_at self.now.slots Erf) }
        ensures { IfOk result (λ t. value_at self.now.slots Erf ≡ Some (AText t)) }
    {
        copied(alloc, self.reason_if_any().unwrap())
    }

    fn bytes_if_any(&self, tag: Tag) -> Option<&[u8]>
        requires { kind_of tag ≡ OfText }
        ensures { option_map (λ x. AText x.now) result ≡ value_at self.now.slots tag }
    {
        contents::text(self.get(tag)?)
    }

    fn text_if_any(&self, alloc: Global, tag: Tag) -> Result<Option<Text>, NoMemory>
        requires { kind_of tag ≡ OfText }
        ensures { IfOk result (λ o. option_map AText o ≡ value_at self.now.slots tag) }
    {
        match self.bytes_if_any(tag) {
            Some(bytes) => Ok(Some(copied(alloc, bytes)?)),
            None => Ok(None),
        }
    }

    fn has_extras(&self) -> bool
        ensures { result ≡ (came self.now.slots Iv || (came self.now.slots Edk || came self.now.slots P)) }
    {
        self.has(Tag::Iv) || (self.has(Tag::Edk) || self.has(Tag::P))
    }

    pub fn extras(&self, alloc: Global) -> Result<Extras, NoMemory>
        ensures { IfOk result (AreExtras self.now.slots) }
    {
        if !self.has_extras() {
            return Ok(Extras {
                iv: None,
                edk: None,
                p: None,
            });
        }
        Ok(Extras {
            iv: self.text_if_any(alloc, Tag::Iv)?,
            edk: self.text_if_any(alloc, Tag::Edk)?,
            p: self.text_if_any(alloc, Tag::P)?,
        })
    }
}
