// Keys under keys: offset, notarized, encrypted under both.
use crate::words::told;
use std::alloc::Global;
use x_base::{Count, Ident, NoMemory};
use x_mac::Pair;
use x_seal::{notarize, offset, seal, spread, unseal, unwrap, unwrap_pair, wrap, wrap_pair};

/// What each call makes of a key under a key-encrypting key.
fn calls(kk: Pair, key: u64, count: Count, from: &Ident, to: &Ident) -> [u64; 13] {
    let offset = offset(kk, count);
    let notarized = notarize(kk, from, to, count);
    let wrapped = wrap(kk, count, key);
    let unwrapped = unwrap(kk, count, key);
    let pair = wrap_pair(
        kk,
        count,
        Pair {
            left: key,
            right: unwrapped,
        },
    );
    let back = unwrap_pair(
        kk,
        count,
        Pair {
            left: wrapped,
            right: key,
        },
    );
    [
        spread(count),
        offset.left,
        offset.right,
        notarized.left,
        notarized.right,
        wrapped,
        unwrapped,
        seal(kk, from, to, count, key),
        unseal(kk, from, to, count, key),
        pair.left,
        pair.right,
        back.left,
        back.right,
    ]
}

/// What is told of a row, in which a count and two identities stand behind the keys.
pub(crate) fn keys(alloc: Global, kk: Pair, key: u64, asked: &str) -> Result<String, NoMemory> {
    let mut words = asked.split(' ').skip(3);
    let count = Count::read(words.next().unwrap_or("").as_bytes());
    let from = Ident::read(words.next().unwrap_or("").as_bytes());
    let to = Ident::read(words.next().unwrap_or("").as_bytes());
    match (count, from, to) {
        (Ok(count), Ok(from), Ok(to)) => told(alloc, &calls(kk, key, count, &from, &to)),
        _ => told(alloc, &[]),
    }
}
