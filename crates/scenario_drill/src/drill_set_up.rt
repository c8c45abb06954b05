// The parties and links of a drill.
ghost use Rattle.std.specs.Prelude.{◌≡◌, ◌++◌, ◌≤◌, ◌<◌, ◌+◌, codes, OnOk};
ghost use Rattle.scenario_drill.specs.Drill.{link, links_from_banks, links_of_banks, links_to_banks, parties, party, set_up};

use crate::writing::Script;
use x_base::{Count, NoMemory};

/// The count of that number.
fn count(number: u64) -> Count
    requires low { 1 ≤ number }
    requires high { number < 100 }
    ensures { result ≡ number }
{
    match Count::of(number) {
        Some(count) => count,
        None => unreachable!(),
    }
}

impl Script {
    #[tactic(auto, unfolding(crate::specs::Drill::party))]
    fn party(&mut self, seed: u64, number: u64, name: &[u8], role: &[u8]) -> Result<(), NoMemory>
        requires { number < 6 }
        ensures { OnOk result (self.new.text ≡ self.old.text ++ party seed number name.now role.now) }
    {
        self.word(b"PARTY")?;
        self.word(name)?;
        self.word(role)?;
        self.pair_word(count(15 + number))?;
        self.last_key(seed.wrapping_add(number))
    }

    #[tactic(auto, unfolding(crate::specs::Drill::parties))]
    fn parties(&mut self, seed: u64) -> Result<(), NoMemory>
        ensures { OnOk result (self.new.text ≡ self.old.text ++ parties seed) }
    {
        self.party(seed, 1, b"BANKA", b"BANK")?;
        self.party(seed, 2, b"BANKB", b"BANK")?;
        self.party(seed, 3, b"BANKC", b"BANK")?;
        self.party(seed, 4, b"CKDX", b"DISTRIBUTION")?;
        self.party(seed, 5, b"CKTX", b"TRANSLATION")?;
        Ok(())
    }

    #[tactic(auto, unfolding(crate::specs::Drill::link))]
    fn link(
        &mut self,
        number: u64,
        origin: &[u8],
        recipient: &[u8],
        label: &[u8],
    ) -> Result<(), NoMemory>
        requires low { 1 ≤ number }
        requires high { number < 16 }
        ensures { OnOk result (self.new.text ≡ self.old.text ++ link number origin.now recipient.now label.now) }
    {
        self.word(b"LINK")?;
        self.word(origin)?;
        self.word(recipient)?;
        self.word(label)?;
        self.pair(count(number))?;
        self.push(b"\n")
    }

    /// The links from a bank to the two others, numbered from `number` on.
    fn links_of_bank(
        &mut self,
        number: u64,
        origin: &[u8],
        first: &[u8],
        second: &[u8],
    ) -> Result<(), NoMemory>
        requires low { 1 ≤ number }
        requires high { number < 15 }
        ensures { OnOk result (self.new.text ≡ self.old.text ++ (link number origin.now first.now (codes "K1")
            ++ link (number + 1) origin.now second.now (codes "K1"))) }
    {
        self.link(number, origin, first, b"K1")?;
        self.link(number + 1, origin, second, b"K1")
    }

    #[tactic(auto, unfolding(crate::specs::Drill::links_of_banks))]
    fn links_of_banks(&mut self) -> Result<(), NoMemory>
        ensures { OnOk result (self.new.text ≡ self.old.text ++ links_of_banks) }
    {
        self.links_of_bank(1, b"BANKA", b"BANKB", b"BANKC")?;
        self.links_of_bank(3, b"BANKB", b"BANKA", b"BANKC")?;
        self.links_of_bank(5, b"BANKC", b"BANKA", b"BANKB")
    }

    /// The links from a party to the three banks, numbered from `number` on.
    #[tactic(auto, unfolding(crate::specs::Drill::links_to_banks))]
    fn links_to_banks(&mut self, number: u64, origin: &[u8]) -> Result<(), NoMemory>
        requires low { 1 ≤ number }
        requires high { number < 14 }
        ensures { OnOk result (self.new.text ≡ self.old.text ++ links_to_banks number origin.now) }
    {
        self.link(number, origin, b"BANKA", b"C")?;
        self.link(number + 1, origin, b"BANKB", b"C")?;
        self.link(number + 2, origin, b"BANKC", b"C")
    }

    /// The links from the three banks to a party, numbered from `number` on.
    #[tactic(auto, unfolding(crate::specs::Drill::links_from_banks))]
    fn links_from_banks(&mut self, number: u64, recipient: &[u8]) -> Result<(), NoMemory>
        requires low { 1 ≤ number }
        requires high { number < 14 }
        ensures { OnOk result (self.new.text ≡ self.old.text ++ links_from_banks number recipient.now) }
    {
        self.link(number, b"BANKA", recipient, b"C")?;
        self.link(number + 1, b"BANKB", recipient, b"C")?;
        self.link(number + 2, b"BANKC", recipient, b"C")
    }

    /// The parties and links.
    pub(crate) fn set_up(&mut self, seed: u64) -> Result<(), NoMemory>
        ensures { OnOk result (self.new.text ≡ self.old.text ++ set_up seed) }
    {
        self.parties(seed)?;
        self.links_of_banks()?;
        self.links_to_banks(7, b"CKDX")?;
        self.links_from_banks(10, b"CKTX")?;
        self.links_to_banks(13, b"CKTX")
    }
}
