// The command that an order gives to a party.
ghost use Rattle.std.specs.Prelude.{◌≡◌};
ghost use Rattle.call_ends.specs.Commands.{command_of};

use party_state::Command;
use x_base::Ident;
use x_line::Order;

/// A command, and the party that is to obey it.
#[derive(Clone, Copy)]
pub struct PartyCommand {
    pub party: Ident,
    pub command: Command,
}

/// The command of an order to a party.
pub fn command_of(order: Order) -> Option<PartyCommand>
    ensures { result ≡ command_of order }
{
    let (party, command) = match order {
        Order::Load {
            party,
            peer,
            label,
            side,
            pair,
        } => (
            party,
            Command::Load {
                peer,
                label,
                side,
                pair,
            },
        ),
        Order::Start { party, peer, label } => (party, Command::Start { peer, label }),
        Order::StartKk {
            party,
            peer,
            new,
            label,
            single,
        } => (
            party,
            Command::StartKk {
                peer,
                label,
                new,
                single,
            },
        ),
        Order::Ask {
            party,
            peer,
            ultimate,
        } => (party, Command::Ask { peer, ultimate }),
        Order::Translate {
            party,
            peer: centre,
            ultimate,
        } => (party, Command::Translate { centre, ultimate }),
        Order::Resend { party, peer } => (party, Command::Resend { peer }),
        Order::End { party, peer, name } => (party, Command::End { peer, name }),
        Order::Drop { party, peer } => (party, Command::Drop { peer }),
        Order::Purge { party } => (party, Command::Purge),
        _ => return None,
    };
    Some(PartyCommand { party, command })
}
