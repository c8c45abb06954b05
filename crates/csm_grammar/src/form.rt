ghost use Rattle.std.specs.Prelude.{◌≡◌, nat_le};
ghost use Rattle.csm_grammar.specs.Classes.{code_tag, times};

use crate::tag::Tag;

/// A form of a class: the tags that a message of the class may have. The variants stand in the
/// order in which forms are tried.
#[derive(Clone, Copy)]
pub enum Form {
    /// Request for service initiation (RSI).
    F1,
    /// Request for service (RFS).
    F2,
    /// Response to request (RTR) without a key for its receiver.
    F3,
    /// Response to request (RTR) with a key for its receiver.
    F4,
    /// Key service message (KSM) with a data key alone.
    F5,
    /// Key service message (KSM) with a new double-length key-encrypting key.
    F6,
    /// Key service message (KSM) with a new single-length key-encrypting key.
    F7,
    /// Key service message (KSM) through a centre.
    F8,
    /// Key service message (KSM) with two data keys.
    F13,
    /// Response service message (RSM).
    F9,
    /// Error recovery service (ERS).
    F10,
    /// Error service message (ESM).
    F11,
    /// Disconnect service message (DSM).
    F12,
}

impl Form {
    /// Whether the form has the tag twice.
    pub fn has_twice(self, tag: Tag) -> bool
        ensures { result ≡ nat_le 2 (times self tag) }
    {
        matches!((self, tag), (Form::F13, Tag::Kd))
    }

    /// The tag of its code, MAC where it may be either.
    pub fn code_tag(self) -> Tag
        ensures { result ≡ code_tag self }
    {
        match self {
            Form::F1 => Tag::Edc,
            _ => Tag::Mac,
        }
    }
}

/// Whether a form has a tag.
#[derive(Clone, Copy, PartialEq, Eq)]
pub enum Need {
    Required,
    Optional,
    Refused,
}
