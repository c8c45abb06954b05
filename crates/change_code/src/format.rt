// The formats in which changes are kept.
ghost use Rattle.std.specs.Prelude.{◌≡◌, None, IfSome};
ghost use Rattle.change_code.specs.declared.format.Format.{Format};
ghost use Rattle.change_code.specs.Code.{number_of};

/// How a change is coded.
#[derive(Clone, Copy, PartialEq, Eq)]
pub enum Format {
    /// The number of the format, how many edits there are, and the edits.
    One,
    /// The same, and behind it the error detection code of all its bytes.
    Two,
}

impl Format {
    /// The byte with which a code in this format begins.
    pub(crate) fn number(self) -> u8
        ensures { result ≡ number_of self }
    {
        match self {
            Format::One => 1,
            Format::Two => 2,
        }
    }

    /// The format whose codes begin with this byte.
    pub(crate) fn of(number: u8) -> Option<Format>
        ensures is { IfSome result (λ format. number ≡ number_of format) }
        ensures none { result ≡ None → (format : Format) → number ≡ number_of format → ⊥ }
    {
        match number {
            1 => Some(Format::One),
            2 => Some(Format::Two),
            _ => None,
        }
    }
}
