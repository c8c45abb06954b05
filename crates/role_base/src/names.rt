// Names of keys and their first count, and what a bank leaves out of its messages.
ghost use Rattle.std.specs.Prelude.{◌≡◌};
ghost use Rattle.party_state.specs.State.{centre_label};
ghost use Rattle.role_base.specs.Texts.{direct_name, no_extras};

use csm_grammar::Extras;
use x_base::{Count, Ident, KeyName, Label};

/// The name of a key that came without a centre.
pub fn direct_name(originator: Ident, label: Label, count: Count) -> KeyName
    ensures { result ≡ direct_name originator label count }
{
    KeyName {
        issuer: originator,
        originator,
        label,
        count,
    }
}

/// No contents that are kept and not interpreted.
pub fn no_extras() -> Extras
    ensures { result ≡ no_extras }
{
    Extras {
        iv: None,
        edk: None,
        p: None,
    }
}

/// The label of the links with centres.
pub fn centre_label() -> Label
    ensures { result ≡ centre_label }
{
    match Label::read(b"C") {
        Ok(label) => label,
        Err(_) => unreachable!(),
    }
}

/// The first count under a key-encrypting key.
pub fn first_count() -> Count
    ensures { result ≡ 1 }
{
    match Count::of(1) {
        Some(count) => count,
        None => unreachable!(),
    }
}
