//! What the benchmark calls from C.
#![tactic(auto)]

ghost use Rattle.std.specs.Prelude.{◌≡◌, ◌<◌};
ghost use Rattle.csm_grammar.specs.Reading.{IsRead};
ghost use Rattle.csm_grammar.specs.declared.parsed.Parsed.{Parsed};
ghost use Rattle.x_des.specs.Des.{enciphered};
ghost use Rattle.x_base.specs.Count.{IsCount};
ghost use Rattle.x_mac.specs.Code.{code_of, mac_of};
ghost use Rattle.x_seal.specs.Wrapped.{unwrap_of};
ghost use Rattle.bench_c.specs.Chain.{chained};

mod images;
mod turns;

use images::{disk_of, image_into, open_again, read_back, shown};
use std::alloc::Global;
use turns::{exchanges, linked_banks};
use x_base::Count;
use x_des::{Block, Schedule};
use x_disk::{Disk, TornDisk};
use x_mac::Pair;

/// The encryption of a block under a fresh key.
#[unsafe(no_mangle)]
pub extern "C" fn bench_encrypt(key: u64, block: u64) -> u64
    ensures { result ≡ enciphered key block }
{
    x_des::encrypt(key, block)
}

/// A block encrypted so many times in a chain, under a fresh key.
#[tactic(auto, unfolding(crate::specs::Chain::chained))]
#[unsafe(no_mangle)]
pub extern "C" fn bench_chain(key: u64, block: u64, times: u64) -> u64
    ensures { result ≡ chained key block times }
{
    let schedule = Schedule::new(key);
    let mut last = Block::new(block);
    'chaining: for _ in 0..times {
        last = schedule.encrypt_block(&last);
    }
    last.word()
}

/// The code of a text under a fresh key.
#[unsafe(no_mangle)]
pub extern "C" fn bench_code(key: u64, text: &[u8]) -> u64
    ensures { result ≡ code_of key text.now }
{
    x_mac::code(key, text)
}

/// The mac of a text under a fresh key.
#[unsafe(no_mangle)]
pub extern "C" fn bench_mac(key: u64, text: &[u8]) -> u32
    ensures { result ≡ mac_of key text.now }
{
    x_mac::mac(key, text)
}

/// A key unwrapped under a fresh pair and a count, and 0 where the count is out of range.
#[unsafe(no_mangle)]
pub extern "C" fn bench_unwrap(left: u64, right: u64, count: u64, sealed: u64) -> u64
    ensures unwrapped { IsCount count → result ≡ unwrap_of (record { left = left; right = right }) count sealed }
    ensures none { (IsCount count → ⊥) → result ≡ 0 }
{
    match Count::of(count) {
        Some(count) => x_seal::unwrap(Pair { left, right }, count, sealed),
        None => 0,
    }
}

/// The length of the message in front of a text, and 0 where none is read.
#[unsafe(no_mangle)]
pub extern "C" fn bench_read(alloc: Global, text: &[u8]) -> usize
    ensures { 0 < result → (p : Parsed) × IsRead text.now p × (p.len ≡ result) }
{
    match csm_read::read(alloc, text) {
        Ok(parsed) => parsed.len,
        Err(_) => 0,
    }
}

/// The number of bodies of an image in memory, which is opened and read to its end so many times; 0 where it can't be.
#[unsafe(no_mangle)]
pub extern "C" fn bench_journal(alloc: Global, image: &[u8], times: u64) -> u64 {
    match disk_of(alloc, image) {
        Some(disk) => read_back(alloc, disk, times).unwrap_or(0),
        None => 0,
    }
}

fn image_after<D: Disk>(
    alloc: Global,
    disk: D,
    other: D,
    sent: u64,
    ended: u64,
    image: &mut [u8],
) -> Option<usize> {
    let both = exchanges(alloc, linked_banks(alloc, disk, other)?, sent, false)?;
    let both = exchanges(alloc, both, ended, true)?;
    image_into(&mut both.first.into_disk(), image).ok()
}

/// Two banks in memory exchange so many keys, and end the first of them, so many, each in three turns. The length of the
/// sender's image, which is put in front of the bytes; 0 where a turn isn't done or the image doesn't fit.
#[unsafe(no_mangle)]
pub extern "C" fn bench_turns(alloc: Global, sent: u64, ended: u64, image: &mut [u8]) -> usize {
    let (Ok(disk), Ok(other)) = (TornDisk::new(alloc, 0), TornDisk::new(alloc, 0)) else {
        return 0;
    };
    image_after(alloc, disk, other, sent, ended, image).unwrap_or(0)
}

/// How often a party is opened of an image in memory: so many times, and 0 where it can't be.
#[unsafe(no_mangle)]
pub extern "C" fn bench_open(alloc: Global, image: &[u8], times: u64) -> u64 {
    match disk_of(alloc, image) {
        Some(disk) => open_again(alloc, disk, times).unwrap_or(0),
        None => 0,
    }
}

/// The length of the lines in which the party of an image is shown, which are put in front of the bytes; 0 where it can't be
/// opened or they don't fit.
#[unsafe(no_mangle)]
pub extern "C" fn bench_show(alloc: Global, image: &[u8], lines: &mut [u8]) -> usize {
    let Some(disk) = disk_of(alloc, image) else {
        return 0;
    };
    let Some(text) = shown(alloc, disk) else {
        return 0;
    };
    let length = text.bytes().len();
    if length > lines.len() {
        return 0;
    }
    lines[..length].copy_from_slice(text.bytes());
    length
}
