// Writing the pieces of an edit's code.
ghost use Rattle.std.specs.Prelude.{◌≡◌, ◌≤◌, ◌+◌, ◌++◌, length};
ghost use Rattle.change_code.specs.Code.{two, eight, short, name_code, pair_code, gen_code, role_code, side_code, status_code, flag_code, maybe_code};

use crate::edit_code::EditCode;
use party_state::{KeyStatus, Role, Side};
use x_base::{Ident, KeyName, Label};
use x_gen::Gen;
use x_mac::Pair;

/// A number of eight bytes.
#[tactic(auto, unfolding(crate::specs::Code::eight))]
pub fn put_word(out: &mut EditCode, n: u64)
    requires room { length out.old + 8 ≤ 128 }
    ensures code { out.new ≡ out.old ++ eight n }
    ensures most { length out.new ≤ length out.old + 8 }
{
    out.put(&n.to_be_bytes());
}

/// A number of two bytes.
#[tactic(auto, unfolding(crate::specs::Code::two))]
pub fn put_half_word(out: &mut EditCode, n: u16)
    requires room { length out.old + 2 ≤ 128 }
    ensures code { out.new ≡ out.old ++ two n }
    ensures most { length out.new ≤ length out.old + 2 }
{
    out.put(&n.to_be_bytes());
}

/// Bytes behind a byte with their number.
fn put_short(out: &mut EditCode, name: &[u8])
    requires short { length name.now ≤ 16 }
    requires room { length out.old + 17 ≤ 128 }
    ensures code { out.new ≡ out.old ++ short name.now }
    ensures most { length out.new ≤ length out.old + 17 }
{
    out.put_byte(name.len() as u8);
    out.put(name);
}

/// An identity behind its length.
pub fn put_ident(out: &mut EditCode, ident: &Ident)
    requires room { length out.old + 17 ≤ 128 }
    ensures code { out.new ≡ out.old ++ short ident.now }
    ensures most { length out.new ≤ length out.old + 17 }
{
    put_short(out, ident.bytes());
}

pub(crate) fn put_label(out: &mut EditCode, label: &Label)
    requires room { length out.old + 17 ≤ 128 }
    ensures code { out.new ≡ out.old ++ short label.now }
    ensures most { length out.new ≤ length out.old + 17 }
{
    put_short(out, label.bytes());
}

/// A key name: issuer, originator, label and count.
pub fn put_name(out: &mut EditCode, name: &KeyName)
    requires room { length out.old + 59 ≤ 128 }
    ensures code { out.new ≡ out.old ++ name_code name.now }
    ensures most { length out.new ≤ length out.old + 59 }
{
    put_ident(out, &name.issuer);
    put_ident(out, &name.originator);
    put_label(out, &name.label);
    put_word(out, name.count.value());
}

pub(crate) fn put_pair(out: &mut EditCode, pair: Pair)
    requires room { length out.old + 16 ≤ 128 }
    ensures code { out.new ≡ out.old ++ pair_code pair }
    ensures most { length out.new ≤ length out.old + 16 }
{
    put_word(out, pair.left);
    put_word(out, pair.right);
}

pub(crate) fn put_generator(out: &mut EditCode, generator: Gen)
    requires room { length out.old + 24 ≤ 128 }
    ensures code { out.new ≡ out.old ++ gen_code generator }
    ensures most { length out.new ≤ length out.old + 24 }
{
    put_pair(out, generator.key);
    put_word(out, generator.v);
}

pub(crate) fn put_role(out: &mut EditCode, role: Role)
    requires room { length out.old + 1 ≤ 128 }
    ensures code { out.new ≡ out.old ++ role_code role }
    ensures most { length out.new ≤ length out.old + 1 }
{
    match role {
        Role::Bank => out.put_byte(1),
        Role::Distribution => out.put_byte(2),
        Role::Translation => out.put_byte(3),
    }
}

/// A side in one byte.
pub fn put_side(out: &mut EditCode, side: Side)
    requires room { length out.old + 1 ≤ 128 }
    ensures code { out.new ≡ out.old ++ side_code side }
    ensures most { length out.new ≤ length out.old + 1 }
{
    match side {
        Side::Sends => out.put_byte(1),
        Side::Takes => out.put_byte(2),
    }
}

pub(crate) fn put_status(out: &mut EditCode, status: KeyStatus)
    requires room { length out.old + 1 ≤ 128 }
    ensures code { out.new ≡ out.old ++ status_code status }
    ensures most { length out.new ≤ length out.old + 1 }
{
    match status {
        KeyStatus::Pending => out.put_byte(1),
        KeyStatus::Live => out.put_byte(2),
        KeyStatus::Held => out.put_byte(3),
        KeyStatus::Closing => out.put_byte(4),
        KeyStatus::Ended => out.put_byte(5),
    }
}

pub(crate) fn put_flag(out: &mut EditCode, flag: bool)
    requires room { length out.old + 1 ≤ 128 }
    ensures code { out.new ≡ out.old ++ flag_code flag }
    ensures most { length out.new ≤ length out.old + 1 }
{
    if flag {
        out.put_byte(1)
    } else {
        out.put_byte(0)
    }
}

/// A label, or that there is none.
pub(crate) fn put_maybe(out: &mut EditCode, label: Option<Label>)
    requires room { length out.old + 18 ≤ 128 }
    ensures code { out.new ≡ out.old ++ maybe_code label }
    ensures most { length out.new ≤ length out.old + 18 }
{
    match label {
        None => out.put_byte(0),
        Some(label) => {
            out.put_byte(1);
            put_label(out, &label);
        }
    }
}
