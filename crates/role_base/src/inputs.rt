// What the types of an input fix, stated by calls that do nothing.
ghost use Rattle.std.specs.Prelude.{IfSome};
ghost use Rattle.x_base.specs.Names.{IsIdent, IsLabel};
ghost use Rattle.x_base.specs.KeyName.{IsKeyName};
ghost use Rattle.role_base.specs.Ranged.{IsCommand, IsInput};

use party_state::{Command, Input};
use party_tables::{law_ident, law_label, law_pair};
use x_base::{Ident, KeyName, Label};

fn law_label_if_any(label: &Option<Label>)
    ensures { IfSome label.now IsLabel }
{
    if let Some(label) = label {
        law_label(label);
    }
}

fn law_ident_if_any(ident: &Option<Ident>)
    ensures { IfSome ident.now IsIdent }
{
    if let Some(ident) = ident {
        law_ident(ident);
    }
}

fn law_name(name: &KeyName)
    ensures { IsKeyName name.now }
{
    law_ident(&name.issuer);
    law_ident(&name.originator);
    law_label(&name.label);
    // The value tells that it is a count.
    name.count.value();
}

fn law_command(command: &Command)
    ensures { IsCommand command.now }
{
    match command {
        Command::Load {
            peer,
            label,
            pair,
            ..
        } => {
            law_ident(peer);
            law_label(label);
            law_pair(pair);
        }
        Command::Start { peer, label } => {
            law_ident(peer);
            law_label_if_any(label);
        }
        Command::StartKk {
            peer,
            label,
            new,
            ..
        } => {
            law_ident(peer);
            law_label_if_any(label);
            law_label(new);
        }
        Command::Ask { peer, ultimate } => {
            law_ident(peer);
            law_ident_if_any(ultimate);
        }
        Command::Translate { centre, ultimate } => {
            law_ident(centre);
            law_ident(ultimate);
        }
        Command::Resend { peer } | Command::Drop { peer } => {
            law_ident(peer);
        }
        Command::End { peer, name } => {
            law_ident(peer);
            law_name(name);
        }
        Command::Purge => (),
    }
}

/// The parts of an input are in their ranges.
pub fn law_input(input: &Input)
    ensures { IsInput input.now }
{
    match input {
        Input::Ordered(command) => law_command(command),
        Input::Arrived(_) => (),
    }
}
