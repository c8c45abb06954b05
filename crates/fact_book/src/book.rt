// The list of facts, in which each is found by its name.
ghost use Rattle.std.specs.Prelude.{◌≡◌, [], ◌∷◌, ◌++◌, length, cond, Some, OnOk, OnErr, option_map, slice_get};
ghost use Rattle.indexmap.specs.IndexMap.{get};
ghost use Rattle.x_base.specs.declared.key_name.FullName.{FullName as TheFullName};
ghost use Rattle.fact_book.specs.Book.{Reaches, facts_of, is_this_text};
ghost use Rattle.fact_book.specs.Facts.{has_named, same_full_name};

use crate::entry::Entry;
use crate::texts::Texts;
use indexmap::IndexMap;
use std::alloc::Global;
use std::marker::Model;
use x_base::{FullName, NoMemory};

/// Facts in the order in which they were added, seen as their list.
#[derive(Drop)]
pub struct FactBook {
    texts: Texts,
    entries: Vec<Entry>,
    latest: IndexMap<FullName, usize>,
}

impl Model for FactBook {
    ghost use Rattle.std.specs.Prelude.{List};
    ghost use Rattle.indexmap.specs.IndexMap.{get};
    ghost use Rattle.fact_book.specs.Book.{IsBook, facts_of};
    ghost use Rattle.fact_book.specs.Facts.{NamedText, same_full_name};

    ghost Value = { List NamedText };

    ghost view = { λ b. facts_of b.entries.items b.texts };

    ghost invariant = { λ b. IsBook b.entries.items b.texts (get same_full_name b.latest) };
}

/// The entry at a place.
fn entry_at(entries: &[Entry], place: usize) -> Option<&Entry>
    ensures { option_map (λ e. e.now) result ≡ slice_get entries.now place }
{
    entries.get(place)
}

/// Whether this text stands at a place.
fn has_text(texts: &Texts, place: usize, text: &[u8]) -> bool
    ensures { result ≡ is_this_text text.now (slice_get texts.now place) }
{
    match texts.get(place) {
        Some(kept) => kept == text,
        None => false,
    }
}

/// Whether a fact has this text, of those that have one name: the one at the place, and those before it.
fn is_reached(
    entries: &[Entry],
    texts: &Texts,
    from: Option<usize>,
    under: &FullName,
    text: &[u8],
) -> bool
    requires reaches { Reaches entries.now texts.now under.now from }
    ensures { result ≡ has_named (facts_of entries.now texts.now) under.now text.now }
{
    let mut at = from;
    'earlier: while let Some(place) = at {
        let Some(entry) = entry_at(entries, place) else {
            return false;
        };
        if has_text(texts, place, text) {
            return true;
        }
        at = entry.earlier;
    }
    false
}

/// Puts a fact behind the others, as the latest of its name.
fn put(
    texts: &mut Texts,
    entries: &mut Vec<Entry>,
    latest: &mut IndexMap<FullName, usize>,
    under: &FullName,
    text: &[u8],
) -> Result<(), NoMemory>
    ensures text { OnOk result (texts.new ≡ texts.old ++ text.now ∷ []) }
    ensures entry { OnOk result (entries.new.items ≡ entries.old.items ++ record { under = under.now; earlier = get same_full_name latest.old under.now } ∷ []) }
    ensures latest { OnOk result ((other : TheFullName) → get same_full_name latest.new other ≡ cond (same_full_name under.now other) (Some (length entries.old.items)) (get same_full_name latest.old other)) }
    ensures no_text { OnErr result (texts.new ≡ texts.old) }
    ensures no_entry { OnErr result (entries.new.items ≡ entries.old.items) }
    ensures same { OnErr result (latest.new.entries ≡ latest.old.entries) }
{
    entries.reserve(1)?;
    latest.reserve(1)?;
    texts.push(text)?;
    let place = entries.len();
    match latest.insert(*under, place) {
        Ok(earlier) => match entries.push(Entry {
            under: *under,
            earlier,
        }) {
            Ok(()) => Ok(()),
            Err(_) => unreachable!(),
        },
        Err(_) => unreachable!(),
    }
}

impl FactBook {
    /// No facts, which takes no memory.
    pub fn new(alloc: Global) -> FactBook
        ensures { result ≡ [] }
    {
        FactBook {
            texts: Texts::new(alloc),
            entries: Vec::new(alloc),
            latest: IndexMap::new(alloc),
        }
    }

    /// Adds a fact: the key of this name made the code of this authenticated text.
    pub fn add(&mut self, under: FullName, text: &[u8]) -> Result<(), NoMemory>
        ensures added { OnOk result (self.new ≡ self.old ++ record { under = under; text = text.now } ∷ []) }
        ensures kept { OnErr result (self.new ≡ self.old) }
    {
        put(
            &mut self.texts,
            &mut self.entries,
            &mut self.latest,
            &under,
            text,
        )?;
        Ok(())
    }

    /// Whether this fact was added. It takes no memory, and looks at the facts of this name alone.
    pub fn has(&self, under: &FullName, text: &[u8]) -> bool
        ensures { result ≡ has_named self.now under.now text.now }
    {
        is_reached(
            &self.entries,
            &self.texts,
            self.latest.get(under).copied(),
            under,
            text,
        )
    }
}
