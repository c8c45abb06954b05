// Two banks in memory that exchange keys and end them, turn by turn.
use csm_read::read_arrival;
use key_store::Store;
use node_core::{Node, Turn};
use party_state::Command;
use std::alloc::Global;
use x_base::{Count, Ident, KeyName, Label, Role, Side, Text, Verdict};
use x_disk::Disk;
use x_gen::Gen;
use x_mac::Pair;

const PAIR: Pair = Pair {
    left: 0x0123456789ABCDEF,
    right: 0xFEDCBA9876543210,
};

/// The key-encrypting key that the two banks share.
const SHARED: Pair = Pair {
    left: 0x0123456789ABCDED,
    right: 0xFEDCBA9876543212,
};

/// BANKA, which sends keys, and BANKB.
#[derive(Drop)]
pub struct Banks<D: Disk> {
    pub first: Node<D>,
    pub second: Node<D>,
}

fn done<D: Disk>(turn: Turn<D>) -> Option<(Node<D>, Option<Text>)> {
    match turn {
        Turn::Done {
            node,
            verdict: Verdict::Accept,
            reply,
            ..
        } => Some((node, reply)),
        _ => None,
    }
}

fn bank<D: Disk>(alloc: Global, disk: D, own: Ident, peer: Ident, side: Side) -> Option<Node<D>> {
    let generator = Gen { key: PAIR, v: 1 };
    let store = Store::create(alloc, disk, own, Role::Bank, generator).ok()?;
    let node = Node::open_from(alloc, store.into_disk()).ok()?;
    let command = Command::Load {
        peer,
        label: Label::read(b"K1").ok()?,
        side,
        pair: SHARED,
    };
    let (node, _) = done(node.order(alloc, command, 0))?;
    Some(node)
}

/// The two banks with their link, each on a blank disk.
pub fn linked_banks<D: Disk>(alloc: Global, disk: D, other: D) -> Option<Banks<D>> {
    let own = Ident::read(b"BANKA").ok()?;
    let peer = Ident::read(b"BANKB").ok()?;
    Some(Banks {
        first: bank(alloc, disk, own, peer, Side::Sends)?,
        second: bank(alloc, other, peer, own, Side::Takes)?,
    })
}

fn take<D: Disk>(
    alloc: Global,
    node: Node<D>,
    text: Option<Text>,
    moment: u64,
) -> Option<(Node<D>, Option<Text>)> {
    let text = text?;
    let arrival = read_arrival(alloc, text.bytes()).ok()?;
    done(node.take(alloc, arrival, moment))
}

/// BANKA obeys a command at a moment, BANKB takes what it writes, and BANKA the answer.
fn exchange<D: Disk>(
    alloc: Global,
    banks: Banks<D>,
    command: Command,
    moment: u64,
) -> Option<Banks<D>> {
    let Banks { first, second } = banks;
    let (first, text) = done(first.order(alloc, command, moment))?;
    let (second, text) = take(alloc, second, text, moment)?;
    let (first, _) = take(alloc, first, text, moment)?;
    Some(Banks { first, second })
}

/// What BANKA is told in the exchange of a number: to send its next key, or to end the key of this number.
fn command_of(number: u64, ends: bool) -> Option<Command> {
    let peer = Ident::read(b"BANKB").ok()?;
    if !ends {
        return Some(Command::Start { peer, label: None });
    }
    let own = Ident::read(b"BANKA").ok()?;
    let name = KeyName {
        issuer: own,
        originator: own,
        label: Label::read(b"K1").ok()?,
        count: Count::of(number)?,
    };
    Some(Command::End { peer, name })
}

/// That many exchanges of three turns each: keys are sent and taken, or the first ones are ended.
pub fn exchanges<D: Disk>(
    alloc: Global,
    banks: Banks<D>,
    keys: u64,
    ends: bool,
) -> Option<Banks<D>> {
    let mut both = banks;
    for number in 1..keys.checked_add(1)? {
        both = exchange(alloc, both, command_of(number, ends)?, number)?;
    }
    Some(both)
}
