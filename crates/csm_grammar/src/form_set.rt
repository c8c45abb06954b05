ghost use Rattle.std.specs.Prelude.{◌≡◌, ◌==◌, ◌<◌, nat_lt, length, find};
ghost use Rattle.std.specs.List.{filter};
ghost use Rattle.csm_grammar.specs.declared.form.Form.{Form};
ghost use Rattle.csm_grammar.specs.Classes.{forms, class_forms, times};
ghost use Rattle.csm_grammar.specs.FormSets.{forms_in, has_form};

use crate::class_rows::{ALLOWING, TWICE};
use crate::form::Form;
use crate::tag::Tag;

/// A set of forms, a bit for each: that of RSI is the lowest, that of DSM the highest.
#[derive(Clone, Copy)]
pub struct FormSet {
    pub bits: u16,
    pub ghost small: { bits < 8192 },
}

fn class_bits(class: &[u8]) -> u16
    ensures forms { forms_in result ≡ class_forms class.now }
    ensures small { result < 8192 }
{
    match class {
        b"RSI" => 0b0_0000_0000_0001,
        b"RFS" => 0b0_0000_0000_0010,
        b"RTR" => 0b0_0000_0000_1100,
        b"KSM" => 0b0_0001_1111_0000,
        b"RSM" => 0b0_0010_0000_0000,
        b"ERS" => 0b0_0100_0000_0000,
        b"ESM" => 0b0_1000_0000_0000,
        b"DSM" => 0b1_0000_0000_0000,
        _ => 0,
    }
}

/// The forms that have the tag more often than so many times.
fn having(tag: Tag, count: u8) -> u16
    ensures forms { (f : Form) → has_form result f ≡ nat_lt count (times f tag) }
    ensures small { result < 8192 }
{
    match count {
        0 => ALLOWING[tag.place()],
        1 if tag.is(Tag::Kd) => TWICE,
        _ => 0,
    }
}

impl FormSet {
    /// All forms, in the order in which they are tried.
    pub const FORMS: [Form; 13] = [
        Form::F1,
        Form::F2,
        Form::F3,
        Form::F4,
        Form::F5,
        Form::F6,
        Form::F7,
        Form::F8,
        Form::F13,
        Form::F9,
        Form::F10,
        Form::F11,
        Form::F12,
    ];

    /// All forms.
    pub fn all() -> FormSet
        ensures { forms_in result.bits ≡ forms }
    {
        FormSet { bits: 8191 }
    }

    /// The forms of a class.
    pub fn of_class(class: &[u8]) -> FormSet
        ensures { forms_in result.bits ≡ class_forms class.now }
    {
        FormSet {
            bits: class_bits(class),
        }
    }

    /// Whether the form is one of them.
    pub fn has(self, form: Form) -> bool
        ensures { result ≡ has_form self.bits form }
    {
        self.bits >> form as u16 & 1 == 1
    }

    /// Those that have the tag more often than so many times.
    pub fn that_have(self, tag: Tag, count: u8) -> FormSet
        ensures { forms_in result.bits ≡ filter (λ f. nat_lt count (times f tag)) (forms_in self.bits) }
    {
        FormSet {
            bits: self.bits & having(tag, count),
        }
    }

    /// Whether there is none.
    pub fn is_empty(self) -> bool
        ensures { result ≡ (length (forms_in self.bits) == 0) }
    {
        self.bits == 0
    }

    /// The first of them.
    pub fn first(self) -> Option<Form>
        ensures { result ≡ find (has_form self.bits) forms }
    {
        FormSet::FORMS.iter().copied().find(|form| self.has(*form))
    }
}
