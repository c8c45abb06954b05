// The texts that were written, and the facts of their codes.
ghost use Rattle.std.specs.Prelude.{◌≡◌, ◌++◌, [], cond, option_to_list, OnOk};
ghost use Rattle.world_laws.specs.Noted.{authenticated_in, noted};

use fact_book::{FactBook, Texts};
use x_base::{FullName, NoMemory, Text};

/// The authenticated text of a text that a party closed by a code.
fn authenticated_in(text: &Text) -> &[u8]
    ensures { result.now ≡ authenticated_in text.now }
{
    let bytes = text.bytes();
    let (front, _) = bytes.split_at(bytes.len().saturating_sub(13));
    front
}

/// Puts a text that was written behind the others, and the fact of its code beside them, where it was made under a key.
pub fn note(
    facts: &mut FactBook,
    texts: &mut Texts,
    under: Option<FullName>,
    reply: &Option<Text>,
) -> Result<(), NoMemory>
    ensures facts { OnOk result (facts.new ≡ facts.old ++ noted under reply.now) }
    ensures texts { OnOk result (texts.new ≡ texts.old ++ option_to_list reply.now) }
{
    let Some(text) = reply else {
        return Ok(());
    };
    if let Some(under) = under {
        facts.add(under, authenticated_in(text))?;
    }
    texts.push(text.bytes())
}

/// Adds the fact of a text that isn't written, where the party after its event stands.
pub fn note_if(
    facts: &mut FactBook,
    next: bool,
    under: Option<FullName>,
    reply: &Option<Text>,
) -> Result<(), NoMemory>
    ensures { OnOk result (facts.new ≡ facts.old ++ cond next (noted under reply.now) []) }
{
    match (next, under, reply) {
        (true, Some(under), Some(text)) => facts.add(under, authenticated_in(text)),
        _ => Ok(()),
    }
}
