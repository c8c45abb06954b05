// Tables in which the rules of a line are looked up.
ghost use Rattle.std.specs.Prelude.{◌≡◌, ◌+◌, ◌<◌, ◌||◌, [], true, false, bytes_eq, codes, OnOk};
ghost use Rattle.std.specs.Option.{option_copied};
ghost use Rattle.indexmap.specs.IndexMap.{insert_entry};
ghost use Rattle.scenario.specs.Rules.{both_or_neither, odd_pair};
ghost use Rattle.scenario.specs.Rules as rules;

use crate::line::Line;
use indexmap::{IndexMap, IndexSet};
use std::alloc::Global;
use x_base::{Ident, Label, NoMemory, Role};
use x_gen::with_odd_parity;
use x_mac::Pair;

/// How many parties a scenario may have, and how many links a party.
const MOST: usize = 64;

/// What the lines so far declare and load.
#[derive(Drop)]
pub(crate) struct Tables {
    only_parties: bool,
    only_set_up: bool,
    parties: IndexMap<Ident, Role>,
    expansions: IndexSet<(u64, u64)>,
    pairs: IndexSet<(u64, u64)>,
    ends: IndexSet<(Ident, Ident, Label)>,
    loads: IndexMap<Ident, usize>,
}

fn odd_halves(pair: &Pair) -> (u64, u64)
    ensures { result ≡ odd_pair pair.now }
{
    (with_odd_parity(pair.left), with_odd_parity(pair.right))
}

/// The party that a line names first, where it must be declared.
fn party_of(line: &Line) -> Option<&Ident>
    ensures { option_copied result ≡ rules.party_of line.now }
{
    match line {
        Line::Start { party, .. }
        | Line::StartKk { party, .. }
        | Line::Ask { party, .. }
        | Line::Translate { party, .. }
        | Line::Resend { party, .. }
        | Line::End { party, .. }
        | Line::Drop { party, .. }
        | Line::Purge { party }
        | Line::Pass { party, .. }
        | Line::Bytes { party, .. } => Some(party),
        Line::Party { .. }
        | Line::Link { .. }
        | Line::Time { .. }
        | Line::Recent { .. }
        | Line::Stop { .. } => None,
    }
}

impl Tables {
    ghost use Rattle.scenario.specs.Tables.{IsNoted, NotesLink, NotesParty, is_centre_in, is_declared_in, lets_declare, lets_follow, lets_load, loads_in, role_in};

    /// Tables of no lines.
    pub(crate) fn new(alloc: Global) -> Tables
        ensures only_parties { result.only_parties ≡ true }
        ensures only_set_up { result.only_set_up ≡ true }
        ensures parties { result.parties.entries ≡ [] }
        ensures expansions { result.expansions.keys ≡ [] }
        ensures pairs { result.pairs.keys ≡ [] }
        ensures ends { result.ends.keys ≡ [] }
        ensures loads { result.loads.entries ≡ [] }
    {
        Tables {
            only_parties: true,
            only_set_up: true,
            parties: IndexMap::new(alloc),
            expansions: IndexSet::new(alloc),
            pairs: IndexSet::new(alloc),
            ends: IndexSet::new(alloc),
            loads: IndexMap::new(alloc),
        }
    }

    fn role(&self, name: &Ident) -> Option<Role>
        ensures { result ≡ role_in self.now name.now }
    {
        self.parties.get(name).copied()
    }

    fn is_declared(&self, name: &Ident) -> bool
        ensures { result ≡ is_declared_in self.now name.now }
    {
        self.role(name).is_some()
    }

    fn is_centre(&self, name: &Ident) -> bool
        ensures { result ≡ is_centre_in self.now name.now }
    {
        match self.role(name) {
            Some(Role::Distribution | Role::Translation) => true,
            Some(Role::Bank) | None => false,
        }
    }

    fn loads(&self, name: &Ident) -> usize
        ensures { result ≡ loads_in self.now name.now }
    {
        self.loads.get(name).copied().unwrap_or(0)
    }

    fn lets_declare(&self, name: &Ident) -> bool
        ensures { result ≡ lets_declare self.now name.now }
    {
        self.only_parties && self.parties.len() < MOST && !self.expansions.contains(&name.expand())
    }

    fn has_label_of_centre(&self, origin: &Ident, recipient: &Ident, label: &Label) -> bool
        ensures { result ≡ both_or_neither (bytes_eq label.now (codes "C")) (is_centre_in self.now origin.now || is_centre_in self.now recipient.now) }
    {
        let is_of_centre = label.bytes() == b"C".as_slice();
        is_of_centre == (self.is_centre(origin) || self.is_centre(recipient))
    }

    fn lets_load(&self, origin: &Ident, recipient: &Ident, label: &Label, pair: &Pair) -> bool
        ensures { result ≡ lets_load self.now origin.now recipient.now label.now pair.now }
    {
        self.only_set_up
            && self.is_declared(origin)
            && self.is_declared(recipient)
            && origin.bytes() != recipient.bytes()
            && self.has_label_of_centre(origin, recipient, label)
            && !self.pairs.contains(&odd_halves(pair))
            && !self.ends.contains(&(*origin, *recipient, *label))
            && self.loads(origin) < MOST
            && self.loads(recipient) < MOST
    }

    /// Whether the line may stand behind those so far.
    pub(crate) fn lets_follow(&self, line: &Line) -> bool
        ensures { result ≡ lets_follow self.now line.now }
    {
        match line {
            Line::Party { name, .. } => self.lets_declare(name),
            Line::Link {
                origin,
                recipient,
                label,
                pair,
            } => self.lets_load(origin, recipient, label, pair),
            _ => match party_of(line) {
                Some(party) => self.is_declared(party),
                None => true,
            },
        }
    }

    fn note_party(&mut self, name: Ident, role: Role) -> Result<(), NoMemory>
        ensures { OnOk result (NotesParty self.old self.new name role) }
    {
        match self.expansions.insert(name.expand()) {
            Ok(_) => {}
            Err(_) => return Err(NoMemory),
        }
        match self.parties.insert(name, role) {
            Ok(_) => Ok(()),
            Err(_) => Err(NoMemory),
        }
    }

    /// Counts a link at each of its ends.
    fn count_loads(&mut self, origin: Ident, recipient: Ident) -> Result<(), NoMemory>
        requires origin { loads_in self.old origin < 64 }
        requires recipient { loads_in self.old recipient < 64 }
        ensures loads { OnOk result (self.new.loads.entries ≡ insert_entry bytes_eq
            (insert_entry bytes_eq self.old.loads.entries origin (loads_in self.old origin + 1)) recipient (loads_in self.old recipient + 1)) }
        ensures others { OnOk result (self.new ≡ record self.old { loads = self.new.loads }) }
    {
        let sent = self.loads(&origin);
        let taken = self.loads(&recipient);
        match self.loads.insert(origin, sent + 1) {
            Ok(_) => {}
            Err(_) => return Err(NoMemory),
        }
        match self.loads.insert(recipient, taken + 1) {
            Ok(_) => Ok(()),
            Err(_) => Err(NoMemory),
        }
    }

    fn note_link(
        &mut self,
        origin: Ident,
        recipient: Ident,
        label: Label,
        pair: &Pair,
    ) -> Result<(), NoMemory>
        requires origin { loads_in self.old origin < 64 }
        requires recipient { loads_in self.old recipient < 64 }
        ensures { OnOk result (NotesLink self.old self.new origin recipient label pair.now) }
    {
        match self.pairs.insert(odd_halves(pair)) {
            Ok(_) => {}
            Err(_) => return Err(NoMemory),
        }
        match self.ends.insert((origin, recipient, label)) {
            Ok(_) => {}
            Err(_) => return Err(NoMemory),
        }
        self.only_parties = false;
        self.count_loads(origin, recipient)?;
        Ok(())
    }

    /// Notes the line behind those so far. After an `Err` the tables stand for no lines.
    pub(crate) fn note(&mut self, line: &Line) -> Result<(), NoMemory>
        requires { lets_follow self.old line.now ≡ true }
        ensures { OnOk result (IsNoted self.old self.new line.now) }
    {
        match line {
            Line::Party { name, role, .. } => self.note_party(*name, *role),
            Line::Link {
                origin,
                recipient,
                label,
                pair,
            } => self.note_link(*origin, *recipient, *label, pair),
            _ => {
                self.only_parties = false;
                self.only_set_up = false;
                Ok(())
            }
        }
    }
}
