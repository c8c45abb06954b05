// What each call makes of the numbers of a row.
use crate::plain::plain;
use crate::words::told;
use std::alloc::Global;
use x_base::{NoMemory, Text};
use x_des::{Block, Schedule, box_and_permutation, decrypt, encrypt};
use x_gen::Gen;
use x_mac::{Pair, PairSchedule, Running, code, ded, ede, mac};

/// What each call makes of a block or of its encryption, and a plain program that goes bit by bit.
pub(crate) fn blocks(key: u64, block: u64, encrypted: u64) -> [u64; 7] {
    let schedule = Schedule::new(key);
    let there = schedule.encrypt_block(&Block::new(block));
    let back = schedule.decrypt_block(&there);
    [
        encrypt(key, block),
        decrypt(key, encrypted),
        plain(key, block),
        schedule.encrypt(block),
        schedule.decrypt(encrypted),
        there.word(),
        back.word(),
    ]
}

/// What P makes of the output of an S-box, from 0, for six input bits; 0 where there is none.
pub(crate) fn entry(which: u64, bits: u64) -> u64 {
    if which < 8 && bits < 64 {
        box_and_permutation(which as usize, bits as u8).into()
    } else {
        0
    }
}

/// What each call makes of a block under a pair, or of its encryption.
pub(crate) fn pairs(pair: Pair, block: u64, encrypted: u64) -> [u64; 4] {
    let schedule = PairSchedule::new(pair);
    [
        ede(pair, block),
        ded(pair, encrypted),
        schedule.ede(block),
        schedule.ded(encrypted),
    ]
}

/// The code of a text whose pieces stand behind the key in hexadecimal digits, the half of it that is sent, and
/// that half where the pieces come one by one.
pub(crate) fn codes(alloc: Global, key: u64, asked: &str) -> Result<String, NoMemory> {
    let mut text = Text::new(alloc);
    let mut running = Running::new(key);
    for digits in asked.split(' ').skip(1) {
        let Ok(piece) = hex::decode(alloc, digits) else {
            return Ok(String::new(alloc));
        };
        text.push(&piece)?;
        running.push(&piece);
    }
    let code = code(key, text.bytes());
    let mac = mac(key, text.bytes());
    let run = running.finish();
    told(alloc, &[code, mac.into(), run.into()])
}

/// The three keys behind the first draw, the time counting on by one at each draw.
pub(crate) fn draws(start: Gen, moment: u64) -> [u64; 3] {
    let (_, first) = start.draw(moment);
    let (one, second) = first.draw(moment.wrapping_add(1));
    let (two, third) = second.draw(moment.wrapping_add(2));
    let (three, _) = third.draw(moment.wrapping_add(3));
    [one, two, three]
}

/// The key of a draw and the generator behind it, and the same of a draw of a good key.
pub(crate) fn steps(start: Gen, moment: u64) -> [u64; 8] {
    let (key, behind) = start.draw(moment);
    let (good, stands) = start.draw_good(moment).unwrap_or((0, start));
    [
        key,
        behind.key.left,
        behind.key.right,
        behind.v,
        good,
        stands.key.left,
        stands.key.right,
        stands.v,
    ]
}
