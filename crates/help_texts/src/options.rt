// The line of a command and its options.
ghost use Rattle.std.specs.Prelude.{◌≡◌, ◌++◌, OnOk};
ghost use Rattle.std.specs.List.{flat_map};
ghost use Rattle.x_line.specs.OrderKinds.{order_kinds};
ghost use Rattle.help_texts.specs.Lines.{optional_option, required_option, usage_line};

use x_base::{NoMemory, Text};
use x_line::{OPTIONS, ORDER_KINDS, Opt, OrderKind};

fn push_required(out: &mut Text, kind: OrderKind, opt: Opt) -> Result<(), NoMemory>
    ensures { OnOk result (out.new ≡ out.old ++ required_option kind opt) }
{
    if kind.is_requiring(opt) {
        out.push(b" --")?;
        out.push(opt.name().as_bytes())?;
    }
    Ok(())
}

fn push_optional(out: &mut Text, kind: OrderKind, opt: Opt) -> Result<(), NoMemory>
    ensures { OnOk result (out.new ≡ out.old ++ optional_option kind opt) }
{
    if !kind.is_requiring(opt) && !kind.is_refusing(opt) {
        out.push(b" [--")?;
        out.push(opt.name().as_bytes())?;
        out.push(b"]")?;
    }
    Ok(())
}

fn push_all_required(out: &mut Text, kind: OrderKind, opts: &[Opt]) -> Result<(), NoMemory>
    ensures { OnOk result (out.new ≡ out.old ++ flat_map (required_option kind) opts.now) }
{
    for opt in opts {
        push_required(out, kind, *opt)?;
    }
    Ok(())
}

fn push_all_optional(out: &mut Text, kind: OrderKind, opts: &[Opt]) -> Result<(), NoMemory>
    ensures { OnOk result (out.new ≡ out.old ++ flat_map (optional_option kind) opts.now) }
{
    for opt in opts {
        push_optional(out, kind, *opt)?;
    }
    Ok(())
}

/// Appends the line of a command: its name, the options that it requires, and in brackets those that it may have.
pub(crate) fn push_usage(out: &mut Text, kind: OrderKind) -> Result<(), NoMemory>
    ensures { OnOk result (out.new ≡ out.old ++ usage_line kind) }
{
    out.push(b"x917 ")?;
    out.push(kind.name().as_bytes())?;
    push_all_required(out, kind, OPTIONS.as_slice())?;
    push_all_optional(out, kind, OPTIONS.as_slice())?;
    out.push(b"\n")
}

fn push_usages(out: &mut Text, kinds: &[OrderKind]) -> Result<(), NoMemory>
    ensures { OnOk result (out.new ≡ out.old ++ flat_map usage_line kinds.now) }
{
    for kind in kinds {
        push_usage(out, *kind)?;
    }
    Ok(())
}

/// Appends the line of each command.
pub(crate) fn push_all(out: &mut Text) -> Result<(), NoMemory>
    ensures { OnOk result (out.new ≡ out.old ++ flat_map usage_line order_kinds) }
{
    push_usages(out, ORDER_KINDS.as_slice())
}
