ghost use Rattle.std.specs.Prelude.{◌≡◌, ◌<◌, ◌≤◌, ◌^◌, IsTrue};
ghost use Rattle.std.specs.List.{list_all};
ghost use Rattle.x_des.specs.Bits.{bits_of, pick, is_place};

/// A wiring board: `N` output bits, each of which shows one of `width` input bits.
#[derive(Clone, Copy)]
pub struct Wiring<const N: usize> {
    table: [u8; N],
    width: u8,
    ghost entries: { IsTrue (list_all (is_place width) table) },
    ghost outputs: { N ≤ 64 },
    ghost inputs: { width ≤ 64 },
}

impl<const N: usize> Wiring<N> {
    ghost use Rattle.x_des.specs.Wiring.{table_of, width_of};

    /// The board whose output `i` from the left shows input `table[i]`, counted from 1 at the
    /// left.
    pub fn new(table: [u8; N], width: u8) -> Wiring<N>
        requires entries { IsTrue (list_all (is_place width) table) }
        requires outputs { N ≤ 64 }
        requires inputs { width ≤ 64 }
        ensures table { table_of result ≡ table.entry }
        ensures width { width_of result ≡ width }
    {
        Wiring { table, width }
    }

    /// The `N` output bits for the low `width` bits of `bits`.
    pub fn pass(&self, bits: u64) -> u64
        ensures picked { bits_of N result ≡ pick (table_of self.now) (bits_of (width_of self.now) bits) }
        ensures below { result < 2 ^ N }
    {
        let mut passed = 0;
        for place in self.table {
            passed = passed << 1 | bits >> (self.width - place) & 1;
        }
        passed
    }
}
