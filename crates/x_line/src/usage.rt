ghost use Rattle.std.specs.Prelude.{◌≡◌};
ghost use Rattle.x_line.specs.Usage.{bad_of, missing_of, number_of, unwanted_of};

use crate::line::Line;
use crate::opt::{OPTIONS, Opt};
use crate::order_kind::OrderKind;
use thiserror::Error;

/// What is wrong with the words; the first in this order is given.
#[derive(Clone, Copy, Debug)]
pub enum UsageKind {
    /// The words are no command line; asking for help or a version is none either.
    Line,
    /// No command has this name.
    Command,
    /// The command doesn't take this option.
    Unwanted(Opt),
    /// The command can't do without this option.
    Missing(Opt),
    /// The value of this option stands for nothing.
    BadValue(Opt),
}

impl UsageKind {
    /// The number of the kind in a status line, 1 to 5 (this project's profile).
    pub fn number(&self) -> u32
        ensures { result ≡ number_of self.now }
    {
        match self {
            UsageKind::Line => 1,
            UsageKind::Command => 2,
            UsageKind::Unwanted(_) => 3,
            UsageKind::Missing(_) => 4,
            UsageKind::BadValue(_) => 5,
        }
    }
}

/// Why the words give no order.
#[derive(Clone, Copy, Debug, Error)]
pub enum LineFault {
    /// They are wrong.
    #[error("usage")]
    Usage(UsageKind),
    /// No memory was left.
    #[error("no memory")]
    NoMemory,
}

/// The first option that is given and that the command doesn't take.
pub(crate) fn unwanted(kind: OrderKind, line: &Line<'_>) -> Option<Opt>
    ensures { result ≡ unwanted_of kind line.now }
{
    OPTIONS
        .iter()
        .copied()
        .find(|opt| line.is_given(*opt) && kind.is_refusing(*opt))
}

/// The first option that isn't given and that the command can't do without.
pub(crate) fn missing(kind: OrderKind, line: &Line<'_>) -> Option<Opt>
    ensures { result ≡ missing_of kind line.now }
{
    OPTIONS
        .iter()
        .copied()
        .find(|opt| !line.is_given(*opt) && kind.is_requiring(*opt))
}

/// The first option that is given and whose value stands for nothing.
pub(crate) fn bad_value(line: &Line<'_>) -> Option<Opt>
    ensures { result ≡ bad_of line.now }
{
    OPTIONS
        .iter()
        .copied()
        .find(|opt| line.is_given(*opt) && !line.is_valid(*opt))
}
