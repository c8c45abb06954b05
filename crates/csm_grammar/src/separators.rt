ghost use Rattle.std.specs.Prelude.{◌≡◌};
ghost use Rattle.csm_grammar.specs.Spelling.{is_separator};

/// Whether the byte is a separator: a blank, CR or LF.
pub fn is_separator(byte: u8) -> bool
    ensures { result ≡ is_separator byte }
{
    matches!(byte, b' ' | b'\r' | b'\n')
}
