// What the ciphers, codes and generators give at a row.
use crate::side::{self, Lengths};
use crate::words::{numbers, told};
use crate::{calls, keys};
use std::alloc::Global;
use x_base::NoMemory;
use x_des::Block;
use x_gen::{Gen, is_weak, with_odd_parity};
use x_mac::{Pair, edc};

/// A row of blocks, codes or keys has a key or a pair of keys first. It is answered by a number for each call that is
/// tried with it, in their order in the code. A row of codes side by side has the number of the first body and how many
/// there are, and may have how many lengths there are, and the least one; it is answered by the code of each. A row of
/// another table is answered by itself.
pub(crate) fn cipher_told(alloc: Global, table: &str, asked: &str) -> Result<String, NoMemory> {
    let [left, right, third, fourth] = numbers(asked);
    let key = Pair { left, right };
    match table {
        "blocks made by another program" => told(alloc, &calls::blocks(left, right, third)),
        "blocks under pairs of keys, made by another program" => {
            told(alloc, &calls::pairs(key, third, fourth))
        }
        "codes made by another program, of texts whole and cut" => calls::codes(alloc, left, asked),
        "codes side by side, made by another program" => {
            let lengths = Lengths {
                least: fourth,
                range: third,
            };
            side::codes(alloc, left, right, lengths)
        }
        "draws made by another program" => told(
            alloc,
            &calls::draws(Gen { key, v: third }, fourth),
        ),
        "draws and what stands behind them" => {
            told(alloc, &calls::steps(Gen { key, v: third }, fourth))
        }
        "keys under keys, made by two models" => keys::keys(alloc, key, third, asked),
        "S-boxes with P" => told(alloc, &[calls::entry(left, right)]),
        "blocks, exclusive or" => told(alloc, &[Block::new(left).xor(&Block::new(right)).word()]),
        "error detection codes" => told(alloc, &[edc(asked.as_bytes()).into()]),
        "odd parity" => told(alloc, &[with_odd_parity(left)]),
        "weak keys" => told(alloc, &[is_weak(left).into()]),
        _ => Ok(String::from_str(alloc, asked)?),
    }
}
