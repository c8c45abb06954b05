// Tables of texts that are read, and of inputs of which a message is heard.
use crate::hearing::heard_told;
use crate::reading::read_told;
use crate::texts::push_meant;
use case_table::{Answers, rows_told};
use std::alloc::Global;
use x_base::{NoMemory, Text};

/// Answers by what is read of the text of a row, or heard.
#[derive(Drop)]
struct Texts {
    alloc: Global,
}

/// The text of a row, as it is written between `<` and `>`.
fn written(asked: &str) -> Option<&str> {
    asked.strip_prefix("<")?.strip_suffix(">")
}

/// What is heard or read of a text.
fn text_told(alloc: Global, table: &str, bytes: &[u8]) -> Result<String, NoMemory> {
    if table == "inputs that are heard" {
        heard_told(alloc, bytes)
    } else {
        read_told(alloc, bytes)
    }
}

impl Answers for Texts {
    fn answer(&mut self, table: &str, asked: &str) -> Result<String, NoMemory> {
        let Some(written) = written(asked) else {
            return Ok("no text".to_string(self.alloc)?);
        };
        let mut text = Text::new(self.alloc);
        push_meant(&mut text, written)?;
        text_told(self.alloc, table, text.bytes())
    }
}

/// What is told of a table of texts.
pub(crate) fn told_of(alloc: Global, table: &str) -> Result<Text, NoMemory> {
    rows_told(alloc, &mut Texts { alloc }, table)
}
