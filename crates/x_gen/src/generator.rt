ghost use Rattle.std.specs.Prelude.{◌≡◌, Some, None, MatchResult};

use crate::parity::{is_weak, with_odd_parity};
use thiserror::Error;
use x_mac::{Pair, PairSchedule};

/// The generator of ANSI X9.17: its pair of keys and its seed value V.
#[derive(Clone, Copy, PartialEq, Eq)]
pub struct Gen {
    pub key: Pair,
    pub v: u64,
}

/// All sixteen draws gave weak keys.
#[derive(Clone, Copy, Debug, Error)]
#[error("weak draws")]
pub struct WeakDraws;

impl Gen {
    ghost use Rattle.x_gen.specs.Gen.{drawn, gen_after, good_draw};
    ghost use Rattle.x_gen.specs.Parity.{odd_parity_of};

    /// The key that is drawn at a moment, in microseconds since 1970, and the generator after the
    /// draw.
    pub fn draw(&self, moment: u64) -> (u64, Gen)
        ensures key { result.0 ≡ odd_parity_of (drawn self.now moment) }
        ensures after { result.1 ≡ gen_after self.now moment }
    {
        let schedule = PairSchedule::new(self.key);
        let stamp = schedule.ede(moment);
        let drawn = schedule.ede(stamp ^ self.v);
        let v = schedule.ede(drawn ^ stamp);
        (with_odd_parity(drawn), Gen { key: self.key, v })
    }

    /// The first of sixteen successive draws whose key isn't weak, and the generator after it;
    /// `WeakDraws` exactly where all sixteen are weak.
    pub fn draw_good(&self, moment: u64) -> Result<(u64, Gen), WeakDraws>
        ensures { MatchResult result (λ good. good_draw self.now moment ≡ Some good) (λ _. good_draw self.now moment ≡ None) }
    {
        let mut generator = *self;
        for i in 0..16u32 {
            let (key, after) = generator.draw(moment);
            generator = after;
            if !is_weak(key) {
                return Ok((key, generator));
            }
        }
        Err(WeakDraws)
    }
}
