// The order that a line gives where the values of its options stand for something.
ghost use Rattle.std.specs.Prelude.{◌≡◌};
ghost use Rattle.x_line.specs.Orders.{IsMade, mirror_of};

use crate::line::Line;
use crate::opt::Opt;
use crate::order::Order;
use crate::order_kind::OrderKind;
use x_base::Ident;

fn init(line: &Line<'_>) -> Option<Order>
    ensures { IsMade OrderKind.Init line.now result }
{
    Some(Order::Init {
        party: line.ident(Opt::Party)?,
        role: line.role()?,
        key: line.generator_pair()?,
        v: line.generator_seed()?,
    })
}

fn create(line: &Line<'_>) -> Option<Order>
    ensures { IsMade OrderKind.Create line.now result }
{
    Some(Order::Create {
        party: line.ident(Opt::Party)?,
        role: line.role()?,
    })
}

fn load(line: &Line<'_>) -> Option<Order>
    ensures { IsMade OrderKind.Load line.now result }
{
    Some(Order::Load {
        party: line.ident(Opt::Party)?,
        peer: line.ident(Opt::Peer)?,
        label: line.label(Opt::Label)?,
        side: line.side()?,
        pair: line.loaded_pair()?,
    })
}

fn enter(line: &Line<'_>) -> Option<Order>
    ensures { IsMade OrderKind.Enter line.now result }
{
    Some(Order::Enter {
        party: line.ident(Opt::Party)?,
        peer: line.ident(Opt::Peer)?,
        label: line.label(Opt::Label)?,
        side: line.side()?,
    })
}

fn value(line: &Line<'_>) -> Option<Order>
    ensures { IsMade OrderKind.Value line.now result }
{
    Some(Order::Value {
        party: line.ident(Opt::Party)?,
        peer: line.ident(Opt::Peer)?,
        label: line.label(Opt::Label)?,
        side: line.side()?,
    })
}

fn start(line: &Line<'_>) -> Option<Order>
    ensures { IsMade OrderKind.Start line.now result }
{
    Some(Order::Start {
        party: line.ident(Opt::Party)?,
        peer: line.ident(Opt::Peer)?,
        label: line.label(Opt::Label),
    })
}

fn start_kk(line: &Line<'_>) -> Option<Order>
    ensures { IsMade OrderKind.StartKk line.now result }
{
    Some(Order::StartKk {
        party: line.ident(Opt::Party)?,
        peer: line.ident(Opt::Peer)?,
        new: line.label(Opt::New)?,
        label: line.label(Opt::Label),
        single: line.is_given(Opt::Single),
    })
}

fn ask(line: &Line<'_>) -> Option<Order>
    ensures { IsMade OrderKind.Ask line.now result }
{
    Some(Order::Ask {
        party: line.ident(Opt::Party)?,
        peer: line.ident(Opt::Peer)?,
        ultimate: line.ident(Opt::Ultimate),
    })
}

fn translate(line: &Line<'_>) -> Option<Order>
    ensures { IsMade OrderKind.Translate line.now result }
{
    Some(Order::Translate {
        party: line.ident(Opt::Party)?,
        peer: line.ident(Opt::Peer)?,
        ultimate: line.ident(Opt::Ultimate)?,
    })
}

fn end(line: &Line<'_>) -> Option<Order>
    ensures { IsMade OrderKind.End line.now result }
{
    Some(Order::End {
        party: line.ident(Opt::Party)?,
        peer: line.ident(Opt::Peer)?,
        name: line.name()?,
    })
}

fn pay(line: &Line<'_>) -> Option<Order>
    ensures { IsMade OrderKind.Pay line.now result }
{
    Some(Order::Pay {
        party: line.ident(Opt::Party)?,
        peer: line.ident(Opt::Peer)?,
        name: line.name()?,
        ledger: line.other(Opt::Ledger)?,
        amount: line.amount()?,
    })
}

fn accept(line: &Line<'_>) -> Option<Order>
    ensures { IsMade OrderKind.Accept line.now result }
{
    Some(Order::Accept {
        party: line.ident(Opt::Party)?,
        ledger: line.other(Opt::Ledger)?,
    })
}

fn spool(line: &Line<'_>) -> Option<Order>
    ensures { IsMade OrderKind.Spool line.now result }
{
    Some(Order::Spool {
        party: line.ident(Opt::Party)?,
        spool: line.other(Opt::Spool)?,
    })
}

fn outbox(line: &Line<'_>) -> Option<Order>
    ensures { IsMade OrderKind.Outbox line.now result }
{
    Some(Order::Outbox {
        spool: line.other(Opt::Spool)?,
    })
}

fn compare(line: &Line<'_>) -> Option<Order>
    ensures { IsMade OrderKind.Compare line.now result }
{
    Some(Order::Compare {
        party: line.ident(Opt::Party)?,
        mirror: line.other(Opt::Mirror)?,
    })
}

fn drill(line: &Line<'_>) -> Option<Order>
    ensures { IsMade OrderKind.Drill line.now result }
{
    Some(Order::Drill {
        seed: line.seed()?,
        events: line.events()?,
    })
}

/// The order of this kind with the values that the line gives, where it gives all.
pub(crate) fn order_of(kind: OrderKind, line: &Line<'_>) -> Option<Order>
    ensures { IsMade kind line.now result }
{
    let party = line.ident(Opt::Party);
    let peer = line.ident(Opt::Peer);
    match (kind, party, peer) {
        (OrderKind::Check, _, _) => Some(Order::Check),
        (OrderKind::Replay, _, _) => Some(Order::Replay),
        (OrderKind::Audit, _, _) => Some(Order::Audit),
        (OrderKind::Batch, _, _) => Some(Order::Batch),
        (OrderKind::Init, _, _) => init(line),
        (OrderKind::Create, _, _) => create(line),
        (OrderKind::Load, _, _) => load(line),
        (OrderKind::Enter, _, _) => enter(line),
        (OrderKind::Start, _, _) => start(line),
        (OrderKind::StartKk, _, _) => start_kk(line),
        (OrderKind::Ask, _, _) => ask(line),
        (OrderKind::Translate, _, _) => translate(line),
        (OrderKind::Take, Some(party), _) => Some(Order::Take { party }),
        (OrderKind::Purge, Some(party), _) => Some(Order::Purge { party }),
        (OrderKind::Show, Some(party), _) => Some(Order::Show { party }),
        (OrderKind::Value, _, _) => value(line),
        (OrderKind::Compact, Some(party), _) => Some(Order::Compact { party }),
        (OrderKind::Migrate, Some(party), _) => Some(Order::Migrate { party }),
        (OrderKind::Wipe, Some(party), _) => Some(Order::Wipe { party }),
        (OrderKind::Compare, _, _) => compare(line),
        (OrderKind::Resend, Some(party), Some(peer)) => Some(Order::Resend { party, peer }),
        (OrderKind::Drop, Some(party), Some(peer)) => Some(Order::Drop { party, peer }),
        (OrderKind::End, _, _) => end(line),
        (OrderKind::Pay, _, _) => pay(line),
        (OrderKind::Accept, _, _) => accept(line),
        (OrderKind::Spool, _, _) => spool(line),
        (OrderKind::Outbox, _, _) => outbox(line),
        (OrderKind::Drill, _, _) => drill(line),
        // An order of a party alone, or of a party and its peer, on a line that doesn't name them.
        (
            OrderKind::Take
            | OrderKind::Purge
            | OrderKind::Show
            | OrderKind::Compact
            | OrderKind::Migrate
            | OrderKind::Wipe
            | OrderKind::Resend
            | OrderKind::Drop,
            _,
            _,
        ) => None,
    }
}

/// The identity under which the party's second disk lies, where a line of this kind gives one beside its order.
pub(crate) fn mirror_of(kind: OrderKind, line: &Line<'_>) -> Option<Ident>
    ensures { result ≡ mirror_of kind line.now }
{
    match kind {
        OrderKind::Compare => None,
        _ => line.other(Opt::Mirror),
    }
}
