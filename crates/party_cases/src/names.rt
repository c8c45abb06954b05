// The names of a peer, a key-encrypting key and a key.
use x_base::{Ident, KeyName, Label};

#[derive(Clone, Copy)]
pub(crate) struct Names {
    pub(crate) peer: Ident,
    pub(crate) label: Label,
    pub(crate) name: KeyName,
}

pub(crate) fn ident_of(text: &str) -> Option<Ident> {
    Ident::read(text.as_bytes()).ok()
}

fn label_of(text: &str) -> Option<Label> {
    Label::read(text.as_bytes()).ok()
}

fn key_name_of(text: &str) -> Option<KeyName> {
    KeyName::read(text.as_bytes()).ok()
}

/// The names that are spelled so.
pub(crate) fn names_of(peer: &str, label: &str, name: &str) -> Option<Names> {
    Some(Names {
        peer: ident_of(peer)?,
        label: label_of(label)?,
        name: key_name_of(name)?,
    })
}
