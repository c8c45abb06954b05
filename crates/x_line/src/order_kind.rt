ghost use Rattle.std.specs.Prelude.{◌≡◌};
ghost use Rattle.x_line.specs.OrderKinds.{name_of_kind, named};

/// A kind of order, named by the word in the place of the command.
#[derive(Clone, Copy)]
pub enum OrderKind {
    Check,
    Replay,
    Audit,
    Batch,
    Init,
    Create,
    Load,
    Enter,
    Start,
    StartKk,
    Ask,
    Translate,
    Take,
    Purge,
    Show,
    Value,
    Compact,
    Migrate,
    Wipe,
    Compare,
    Resend,
    Drop,
    End,
    Pay,
    Accept,
    Spool,
    Outbox,
    Drill,
}

/// All kinds.
pub const ORDER_KINDS: [OrderKind; 28] = [
    OrderKind::Check,
    OrderKind::Replay,
    OrderKind::Audit,
    OrderKind::Batch,
    OrderKind::Init,
    OrderKind::Create,
    OrderKind::Load,
    OrderKind::Enter,
    OrderKind::Start,
    OrderKind::StartKk,
    OrderKind::Ask,
    OrderKind::Translate,
    OrderKind::Take,
    OrderKind::Purge,
    OrderKind::Show,
    OrderKind::Value,
    OrderKind::Compact,
    OrderKind::Migrate,
    OrderKind::Wipe,
    OrderKind::Compare,
    OrderKind::Resend,
    OrderKind::Drop,
    OrderKind::End,
    OrderKind::Pay,
    OrderKind::Accept,
    OrderKind::Spool,
    OrderKind::Outbox,
    OrderKind::Drill,
];

impl OrderKind {
    /// The word that names it.
    pub fn name(self) -> &'static str
        ensures { result.now ≡ name_of_kind self }
    {
        match self {
            OrderKind::Check => "check",
            OrderKind::Replay => "replay",
            OrderKind::Audit => "audit",
            OrderKind::Batch => "batch",
            OrderKind::Init => "init",
            OrderKind::Create => "create",
            OrderKind::Load => "load",
            OrderKind::Enter => "enter",
            OrderKind::Start => "start",
            OrderKind::StartKk => "startkk",
            OrderKind::Ask => "ask",
            OrderKind::Translate => "translate",
            OrderKind::Take => "take",
            OrderKind::Purge => "purge",
            OrderKind::Show => "show",
            OrderKind::Value => "value",
            OrderKind::Compact => "compact",
            OrderKind::Migrate => "migrate",
            OrderKind::Wipe => "wipe",
            OrderKind::Compare => "compare",
            OrderKind::Resend => "resend",
            OrderKind::Drop => "drop",
            OrderKind::End => "end",
            OrderKind::Pay => "pay",
            OrderKind::Accept => "accept",
            OrderKind::Spool => "spool",
            OrderKind::Outbox => "outbox",
            OrderKind::Drill => "drill",
        }
    }

    /// The kind of this name.
    pub fn named(name: &str) -> Option<OrderKind>
        ensures { result ≡ named name.now }
    {
        ORDER_KINDS.iter().copied().find(|kind| kind.name() == name)
    }
}
