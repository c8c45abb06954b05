// Fields that a message may have.
ghost use Rattle.std.specs.Prelude.{◌≡◌, OnOk};
ghost use Rattle.csm_grammar.specs.Values.{kind_of};
ghost use Rattle.csm_grammar.specs.Values.Value.{AText, AName, ANumber};
ghost use Rattle.csm_grammar.specs.Values.Kind.{OfIdent, OfName, OfLabel, OfCount, OfText};
ghost use Rattle.csm_grammar.specs.Messages.{if_any};
ghost use Rattle.csm_write.specs.Writing.{Adds};

use crate::writer::Writer;
use csm_grammar::Tag;
use x_base::{Count, Ident, KeyName, Label, NoMemory, Text};

impl Writer {
    pub fn ident_if_any(&mut self, tag: Tag, ident: &Option<Ident>) -> Result<(), NoMemory>
        requires { kind_of tag ≡ OfIdent }
        ensures { OnOk result (Adds self.old self.new (if_any tag AText ident.now)) }
    {
        match ident {
            Some(ident) => self.ident(tag, ident),
            None => Ok(()),
        }
    }

    pub fn label_if_any(&mut self, tag: Tag, label: &Option<Label>) -> Result<(), NoMemory>
        requires { kind_of tag ≡ OfLabel }
        ensures { OnOk result (Adds self.old self.new (if_any tag AText label.now)) }
    {
        match label {
            Some(label) => self.label(tag, label),
            None => Ok(()),
        }
    }

    pub fn name_if_any(&mut self, tag: Tag, name: &Option<KeyName>) -> Result<(), NoMemory>
        requires { kind_of tag ≡ OfName }
        ensures { OnOk result (Adds self.old self.new (if_any tag AName name.now)) }
    {
        match name {
            Some(name) => self.name(tag, name),
            None => Ok(()),
        }
    }

    pub fn count_if_any(&mut self, tag: Tag, count: &Option<Count>) -> Result<(), NoMemory>
        requires { kind_of tag ≡ OfCount }
        ensures { OnOk result (Adds self.old self.new (if_any tag ANumber count.now)) }
    {
        match count {
            Some(count) => self.count(tag, count),
            None => Ok(()),
        }
    }

    pub fn text_if_any(&mut self, tag: Tag, text: &Option<Text>) -> Result<(), NoMemory>
        requires { kind_of tag ≡ OfText }
        ensures { OnOk result (Adds self.old self.new (if_any tag AText text.now)) }
    {
        match text {
            Some(text) => self.text(tag, text),
            None => Ok(()),
        }
    }
}
