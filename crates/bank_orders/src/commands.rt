// What an operator asks of a bank.
ghost use Rattle.role_base.specs.Deciding.{Decides};
ghost use Rattle.bank_orders.specs.Orders.{command_row};

use crate::ask::ask;
use crate::ending::{end, purge};
use crate::giving_up::drop_exchange;
use crate::resend::resend;
use crate::start::start;
use crate::start_kk::{Wanted, start_kk};
use crate::translate::translate;
use party_state::{Command, Decision, State};
use role_base::load;
use std::alloc::Global;
use x_base::NoMemory;

/// What a bank decides of a command at a moment.
pub fn command(
    alloc: Global,
    state: &State,
    command: &Command,
    moment: u64,
) -> Result<Decision, NoMemory>
    ensures { Decides state.now (command_row state.now command.now moment) result }
{
    match command {
        Command::Load {
            peer,
            label,
            side,
            pair,
        } => load(alloc, state, peer, label, *side, *pair),
        Command::Start { peer, label } => start(alloc, state, peer, label, moment),
        Command::StartKk {
            peer,
            label,
            new,
            single,
        } => {
            let wanted = Wanted {
                label: *new,
                single: *single,
            };
            start_kk(alloc, state, peer, label, &wanted, moment)
        }
        Command::Ask { peer, ultimate } => ask(alloc, state, peer, ultimate),
        Command::Translate { centre, ultimate } => {
            translate(alloc, state, centre, ultimate, moment)
        }
        Command::Resend { peer } => resend(alloc, state, peer),
        Command::End { peer, name } => end(alloc, state, peer, name),
        Command::Drop { peer } => drop_exchange(alloc, state, peer),
        Command::Purge => purge(alloc, state),
    }
}
