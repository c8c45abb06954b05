// The letters of the stopped events.
ghost use Rattle.std.specs.Prelude.{◌≡◌, ◌==◌, [], length, IfSome, IfNone};
ghost use Rattle.std.specs.List.{All};
ghost use Rattle.audit_check.specs.Audits.{IsLetter};
ghost use Rattle.audit_check.specs.Events.{IsNextLetter};

use std::marker::Model;

/// The letters of the stopped events that are to come.
#[derive(Drop)]
pub(crate) struct Letters<'a> {
    rest: &'a [u8],
}

impl<'a> Model for Letters<'a> {
    ghost use Rattle.std.specs.Prelude.{List, ℕ};
    ghost use Rattle.std.specs.List.{All};
    ghost use Rattle.audit_check.specs.Audits.{IsLetter};

    ghost Value = { List ℕ };

    ghost view = { λ l. l.rest.now };

    ghost invariant = { λ l. All IsLetter l.rest.now };
}

impl<'a> Letters<'a> {
    pub(crate) fn of(letters: &'a [u8]) -> Letters<'a>
        requires { All IsLetter letters.now }
        ensures { result ≡ letters.entry.now }
    {
        Letters { rest: letters }
    }

    pub(crate) fn is_empty(&self) -> bool
        ensures { result ≡ (length self.now == 0) }
    {
        self.rest.is_empty()
    }

    /// Takes the letter of the next stopped event: whether the new state stands after it.
    pub(crate) fn take(&mut self) -> Option<bool>
        ensures taken { IfSome result (IsNextLetter self.old self.new) }
        ensures none { IfNone result (self.old ≡ []) }
    {
        let Some((letter, rest)) = self.rest.split_first() else {
            return None;
        };
        self.rest = rest;
        Some(*letter == b'N')
    }
}
