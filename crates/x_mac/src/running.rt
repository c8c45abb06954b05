ghost use Rattle.std.specs.Prelude.{◌≡◌, ℕ, ◌<◌, ◌≤◌, ◌-◌, ◌/◌, ◌^◌, ◌++◌, ◌∷◌, List, [], length, replicate};
ghost use Rattle.x_mac.specs.Code.{chained, code_of, edc_of, mac_of, word_of};

use x_des::{Block, Schedule};

/// The key of `edc`.
const EDC_KEY: u64 = 0x0123_4567_89AB_CDEF;

/// The round keys of `EDC_KEY`, as a schedule keeps them.
const EDC_ROUND_KEYS: [u64; 16] = [
    0x0209_2626_3027_3425,
    0x1a19_0928_1a19_1626,
    0x1112_2d23_1d0a_0212,
    0x1c27_2909_2812_1817,
    0x0f20_051b_0e03_3a02,
    0x0814_0f15_321e_0805,
    0x1b12_0213_0015_2e06,
    0x1520_1b16_3838_0e01,
    0x3027_0920_0c29_2b39,
    0x240c_1835_1e07_3132,
    0x083e_0324_1103_183a,
    0x1c03_1131_1325_1514,
    0x2413_1203_1c10_183c,
    0x150e_2032_0436_1d0d,
    0x2d04_021a_2905_2135,
    0x3234_2e00_2303_0732,
];

/// The authentication code of a text that comes in pieces.
#[derive(Drop)]
pub struct Running {
    schedule: Schedule,
    last: Block,
    held: [u8; 8],
    count: usize,
    ghost within: { count < 8 },
}

impl Running {
    ghost use Rattle.x_mac.specs.Running.{Holds};

    /// No text so far, under a key of 64 bits.
    pub fn new(key: u64) -> Running
        ensures { Holds result key [] }
    {
        Running::under(Schedule::new(key))
    }

    /// No text so far, under the key of a schedule.
    fn under(schedule: Schedule) -> Running
        ensures { Holds result schedule [] }
    {
        Running {
            schedule,
            last: Block::new(0),
            held: [0; 8],
            count: 0,
        }
    }

    /// Takes the next piece of the text.
    pub fn push(&mut self, piece: &[u8])
        ensures { (key : ℕ) (text : List ℕ) → Holds self.old key text → Holds self.new key (text ++ piece.now) }
    {
        let mut rest = piece;
        while let Some((first, others)) = rest.split_first() {
            rest = match rest.split_first_chunk() {
                Some((block, behind)) if self.count == 0 => {
                    self.chain(block);
                    behind
                }
                _ => {
                    self.hold(*first);
                    others
                }
            };
        }
    }

    /// The `mac` of all pieces joined, however they were cut.
    pub fn finish(self) -> u32
        ensures { (key : ℕ) (text : List ℕ) → Holds self key text → result ≡ mac_of key text }
    {
        leftmost(self.total())
    }

    /// The code of all pieces joined.
    fn total(&self) -> u64
        ensures { (key : ℕ) (text : List ℕ) → Holds self.now key text → result ≡ code_of key text }
    {
        if self.count == 0 {
            return self.last.word();
        }
        let block = Block::new(word(&self.held[..self.count]));
        self.schedule.encrypt_block(&self.last.xor(&block)).word()
    }

    /// Takes one byte more.
    fn hold(&mut self, byte: u8)
        ensures { (key : ℕ) (text : List ℕ) → Holds self.old key text → Holds self.new key (text ++ byte ∷ []) }
    {
        self.held[self.count] = byte;
        self.count += 1;
        if self.count == 8 {
            let held = self.held;
            self.count = 0;
            self.chain(&held);
        }
    }

    /// Takes a whole block into the chain.
    fn chain(&mut self, block: &[u8; 8])
        ensures last { self.new.last ≡ chained self.old.schedule self.old.last (word_of block.now) }
        ensures schedule { self.new.schedule ≡ self.old.schedule }
        ensures held { self.new.held ≡ self.old.held }
        ensures count { self.new.count ≡ self.old.count }
    {
        let block = Block::new(u64::from_be_bytes(*block));
        self.last = self.schedule.encrypt_block(&self.last.xor(&block));
    }
}

/// The leftmost 32 bits of a code.
fn leftmost(code: u64) -> u32
    ensures { result ≡ code / 2 ^ 32 }
{
    (code >> 32) as u32
}

/// Up to eight bytes and the zero bytes that fill them to eight, as a word whose first byte is the
/// most significant.
fn word(bytes: &[u8]) -> u64
    requires { length bytes.now ≤ 8 }
    ensures { result ≡ word_of (bytes.now ++ replicate (8 - length bytes.now) 0) }
{
    let mut whole = [0; 8];
    whole[..bytes.len()].copy_from_slice(bytes);
    u64::from_be_bytes(whole)
}

/// The code of a text under a key of 64 bits (FIPS 113): the last block of cipher block chaining
/// from zero, with zero bytes filling the last block; 0 for the empty text.
pub fn code(key: u64, text: &[u8]) -> u64
    ensures { result ≡ code_of key text.now }
{
    let mut running = Running::new(key);
    running.push(text);
    running.total()
}

/// The authentication code of a text under a key of 64 bits: the leftmost 32 bits of `code`.
pub fn mac(key: u64, text: &[u8]) -> u32
    ensures { result ≡ mac_of key text.now }
{
    leftmost(code(key, text))
}

/// The schedule of the key of `edc`, whose round keys aren't made again.
fn edc_schedule() -> Schedule
    ensures { result ≡ 0x0123456789ABCDEF }
{
    Schedule::of_round_keys(EDC_ROUND_KEYS, EDC_KEY)
}

/// The error detection code of a text: its `mac` under the key 0123456789ABCDEF.
pub fn edc(text: &[u8]) -> u32
    ensures { result ≡ edc_of text.now }
{
    let mut running = Running::under(edc_schedule());
    running.push(text);
    running.finish()
}
