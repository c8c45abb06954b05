ghost use Rattle.std.specs.Prelude.{◌≡◌};
ghost use Rattle.x_line.specs.Needs.{is_refused, is_required, need_of};

use crate::opt::Opt;
use crate::order_kind::OrderKind;

/// What a kind of order makes of an option.
#[derive(Clone, Copy)]
pub(crate) enum Need {
    Required,
    Optional,
    Refused,
}

impl OrderKind {
    /// The table of kinds of order and options.
    fn need(self, opt: Opt) -> Need
        ensures { result ≡ need_of self opt }
    {
        match (self, opt) {
            (OrderKind::Init, Opt::Party | Opt::Role | Opt::Genkey | Opt::Genseed) =>
                Need::Required,
            (OrderKind::Create, Opt::Party | Opt::Role) => Need::Required,
            (OrderKind::Load, Opt::Party | Opt::Peer | Opt::Label | Opt::Side | Opt::Key) => {
                Need::Required
            }
            (
                OrderKind::Enter | OrderKind::Value,
                Opt::Party | Opt::Peer | Opt::Label | Opt::Side,
            ) => Need::Required,
            (OrderKind::Start, Opt::Party | Opt::Peer) => Need::Required,
            (OrderKind::Start, Opt::Label) => Need::Optional,
            (OrderKind::StartKk, Opt::Party | Opt::Peer | Opt::New) => Need::Required,
            (OrderKind::StartKk, Opt::Label | Opt::Single) => Need::Optional,
            (OrderKind::Ask, Opt::Party | Opt::Peer) => Need::Required,
            (OrderKind::Ask, Opt::Ultimate) => Need::Optional,
            (OrderKind::Translate, Opt::Party | Opt::Peer | Opt::Ultimate) => Need::Required,
            (
                OrderKind::Take
                | OrderKind::Purge
                | OrderKind::Show
                | OrderKind::Compact
                | OrderKind::Migrate
                | OrderKind::Wipe,
                Opt::Party,
            ) => { Need::Required }
            (OrderKind::Take, Opt::Tell) => Need::Optional,
            (OrderKind::Resend | OrderKind::Drop, Opt::Party | Opt::Peer) => Need::Required,
            (OrderKind::End, Opt::Party | Opt::Peer | Opt::Name) => Need::Required,
            (OrderKind::Pay, Opt::Party | Opt::Peer | Opt::Name | Opt::Ledger | Opt::Amount) =>
                Need::Required,
            (OrderKind::Accept, Opt::Party | Opt::Ledger) => Need::Required,
            (OrderKind::Spool, Opt::Party | Opt::Spool) => Need::Required,
            (OrderKind::Outbox, Opt::Spool) => Need::Required,
            (OrderKind::Drill, Opt::Seed | Opt::Events) => Need::Required,
            (OrderKind::Compare, Opt::Party) => Need::Required,
            (_, Opt::Mirror) => self.need_of_mirror(),
            _ => Need::Refused,
        }
    }

    /// The row of the second disk.
    fn need_of_mirror(self) -> Need
        ensures { result ≡ need_of self Opt.Mirror }
    {
        match self {
            OrderKind::Compare => Need::Required,
            OrderKind::Init
            | OrderKind::Create
            | OrderKind::Load
            | OrderKind::Enter
            | OrderKind::Start
            | OrderKind::StartKk
            | OrderKind::Ask
            | OrderKind::Translate
            | OrderKind::Take
            | OrderKind::Resend
            | OrderKind::End
            | OrderKind::Drop
            | OrderKind::Purge
            | OrderKind::Show => Need::Optional,
            _ => Need::Refused,
        }
    }

    /// Whether such an order doesn't take the option.
    pub fn is_refusing(self, opt: Opt) -> bool
        ensures { result ≡ is_refused (need_of self opt) }
    {
        matches!(self.need(opt), Need::Refused)
    }

    /// Whether such an order can't do without the option.
    pub fn is_requiring(self, opt: Opt) -> bool
        ensures { result ≡ is_required (need_of self opt) }
    {
        matches!(self.need(opt), Need::Required)
    }
}
