ghost use Rattle.std.specs.Prelude.{◌≡◌, Err, IfOk, OnOk, true, false, option_map};
ghost use Rattle.clap.specs.Words.{first_of};
ghost use Rattle.x_line.specs.Line.{is_line, rows_of_line};
ghost use Rattle.x_line.specs.Options.{name_of};
ghost use Rattle.x_line.specs.LineValues.{is_given, is_true, word_of};

use crate::declared::declared;
use crate::opt::Opt;
use clap::ArgMatches;
use clap::error::ErrorKind;
use std::alloc::Global;
use std::marker::Model;
use x_base::Words;

/// Why clap gives nothing.
#[derive(Clone, Copy)]
pub(crate) enum Unread {
    /// The words are no command line.
    Refused,
    /// No memory was left.
    NoMemory,
}

/// What clap finds in the words of a command line.
#[derive(Drop)]
pub(crate) struct Line<'a> {
    matches: ArgMatches<'a>,
}

impl<'a> Model for Line<'a> {
    ghost use Rattle.std.specs.Prelude.{List};
    ghost use Rattle.clap.specs.Words.{Row, rows_of, found_of};

    ghost Value = { List Row };

    ghost view = { λ l. rows_of (found_of l.matches) };
}

impl<'a> Line<'a> {
    /// Reads the words.
    pub(crate) fn read(alloc: Global, words: &'a Words) -> Result<Line<'a>, Unread>
        ensures rows { IfOk result (λ l. l ≡ rows_of_line words.now) }
        ensures taken { OnOk result (is_line words.now ≡ true) }
        ensures refused { result ≡ Err Unread.Refused → is_line words.now ≡ false }
    {
        let Ok(command) = declared(alloc) else {
            return Err(Unread::NoMemory);
        };
        match command.try_get_matches_from(words.texts()) {
            Ok(matches) => Ok(Line { matches }),
            Err(error) => match error.kind() {
                ErrorKind::OutOfMemory => Err(Unread::NoMemory),
                _ => Err(Unread::Refused),
            },
        }
    }

    /// The word in the place of the command.
    pub(crate) fn word(&self) -> Option<&'a str>
        ensures { option_map (λ s. s.now) result ≡ word_of self.now }
    {
        self.matches.get_str("command")
    }

    /// The value of the option as it stands; of the flag `true` or `false`.
    pub(crate) fn text(&self, opt: Opt) -> Option<&'a str>
        ensures { option_map (λ s. s.now) result ≡ first_of (name_of opt) self.now }
    {
        self.matches.get_str(opt.name())
    }

    /// Whether the words give the option.
    pub(crate) fn is_given(&self, opt: Opt) -> bool
        ensures { result ≡ is_given opt self.now }
    {
        match opt {
            Opt::Single | Opt::Tell => is_true(self.text(opt)),
            _ => self.text(opt).is_some(),
        }
    }
}

/// Whether a flag stands in the words.
fn is_true(text: Option<&str>) -> bool
    ensures { result ≡ is_true (option_map (λ s. s.now) text.entry) }
{
    match text {
        Some("true") => true,
        _ => false,
    }
}
