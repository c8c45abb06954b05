// The text of a topic.
ghost use Rattle.std.specs.Prelude.{◌≡◌, ◌++◌, ℕ, List, IfOk, OnOk};
ghost use Rattle.help_texts.specs.Lines.{head_of};

use crate::asking::Topic;
use crate::command_texts::command_text;
use crate::options::{push_all, push_usage};
use crate::refusal_texts::refusal_text;
use std::alloc::Global;
use x_base::{NoMemory, Text};

/// What stands behind the lines of all commands: the versions of the program and of what proved it.
const VERSIONS: &[u8] = b"
x917 help COMMAND tells of a command, x917 help NUMBER of a refusal. Words in quotation marks are
sections of docs/OPERATOR.md.
x917 1.0.0, proved with rattle-kit-13f
";

/// Appends the line with which the text of a topic begins, or the lines.
fn push_head(out: &mut Text, alloc: Global, topic: Topic) -> Result<(), NoMemory>
    ensures { OnOk result (out.new ≡ out.old ++ head_of topic) }
{
    match topic {
        Topic::All => push_all(out),
        Topic::Command(kind) => push_usage(out, kind),
        Topic::Refusal(number) => {
            let line = format!(in alloc; "refused {number}\n")?;
            out.push(line.as_bytes())
        }
    }
}

fn rest(topic: Topic) -> &'static [u8] {
    match topic {
        Topic::All => VERSIONS,
        Topic::Command(kind) => command_text(kind).as_bytes(),
        Topic::Refusal(number) => refusal_text(number).as_bytes(),
    }
}

/// The text of a topic: behind its first lines, which are told, words about it.
pub fn help_text(alloc: Global, topic: Topic) -> Result<Text, NoMemory>
    ensures { IfOk result (λ text. (rest : List ℕ) × (text ≡ head_of topic ++ rest)) }
{
    let mut text = Text::new(alloc);
    push_head(&mut text, alloc, topic)?;
    text.push(rest(topic))?;
    Ok(text)
}
