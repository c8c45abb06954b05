// What help is asked about.
ghost use Rattle.std.specs.Prelude.{◌≡◌};
ghost use Rattle.help_texts.specs.Topics.{named_topic, refusal_of, topic_of};

use x_base::Words;
use x_line::OrderKind;
use x_values::read_plain_number_within;

/// What help is asked about.
#[derive(Clone, Copy)]
pub enum Topic {
    /// All commands.
    All,
    /// A command.
    Command(OrderKind),
    /// A refusal, by its number: 4 to 51.
    Refusal(u64),
}

/// The number of a refusal. Not each number between the first and the last is one.
fn refusal(word: &str) -> Option<Topic>
    ensures { result ≡ refusal_of word.now }
{
    Some(Topic::Refusal(read_plain_number_within(4, 51, word.as_bytes())?))
}

/// The topic of this name.
fn named(word: &str) -> Option<Topic>
    ensures { result ≡ named_topic word.now }
{
    match OrderKind::named(word) {
        Some(kind) => Some(Topic::Command(kind)),
        None => refusal(word),
    }
}

/// The topic of the words: they are `help`, or `help` and the name of a command or the number of a refusal.
pub fn asked(words: &Words) -> Option<Topic>
    ensures { result ≡ topic_of words.now }
{
    let first = words.word(0)?;
    if words.word(2).is_some() || first != "help" {
        return None;
    }
    match words.word(1) {
        None => Some(Topic::All),
        Some(name) => named(name),
    }
}
