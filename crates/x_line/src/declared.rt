// The command line, as clap is to read it.
ghost use Rattle.std.specs.Prelude.{◌≡◌, IfOk, false, fold};
ghost use Rattle.clap.specs.Words.{app_of, rule_of};
ghost use Rattle.x_line.specs.Line.{option_rule, with_option, x917_app};
ghost use Rattle.x_line.specs.Options.{name_of};

use crate::opt::{OPTIONS, Opt};
use clap::{Arg, ArgAction, Command, Error};
use std::alloc::Global;

/// The argument that stands for an option.
fn argument<'a>(alloc: Global, opt: Opt, name: &'a str) -> Arg<'a>
    requires { name.now ≡ name_of opt }
    ensures rule { rule_of result ≡ option_rule opt }
    ensures local { result.global ≡ false }
{
    let action = match opt {
        Opt::Single | Opt::Tell => ArgAction::SetTrue,
        _ => ArgAction::Set,
    };
    Arg::new(alloc, name).long(name).action(action)
}

/// The command with these options behind its other arguments.
fn with_options<'a>(
    alloc: Global,
    mut command: Command<'a>,
    options: &[Opt],
) -> Result<Command<'a>, Error>
    ensures { IfOk result (λ c. app_of c ≡ fold with_option (app_of command.entry) options.now) }
{
    for opt in options {
        command = command.arg(argument(alloc, *opt, opt.name()))?;
    }
    Ok(command)
}

/// The command line.
pub(crate) fn declared<'a>(alloc: Global) -> Result<Command<'a>, Error>
    ensures { IfOk result (λ c. app_of c ≡ x917_app) }
{
    let positional = Arg::new(alloc, "command")
        .required(true)
        .action(ArgAction::Set);
    let bare = Command::new(alloc, "x917")
        .no_binary_name(true)
        .arg(positional)?;
    with_options(alloc, bare, OPTIONS.as_slice())
}
