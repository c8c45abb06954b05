//! The texts that wait for a lane, the long ones first.
ghost use Rattle.std.specs.Prelude.{IfSome};
ghost use Rattle.edc_slices.specs.Lanes.{IsAtStart};

use crate::lanes::Lane;
use crate::text::{before_end, blocks};
use x_base::Text;

/// Where the next text is looked for: long ones in the first walk, those of at most `short` blocks in
/// the second.
#[derive(Drop)]
pub struct Queue {
    long: bool,
    at: usize,
    short: usize,
}

impl Queue {
    /// The longest text has `longest` blocks; one of more than half as many is long.
    pub fn new(longest: usize) -> Queue {
        Queue {
            long: true,
            at: 0,
            short: longest / 2,
        }
    }

    /// A lane at the start of the next text that has a block, or without a text where none waits.
    #[inline(never)]
    pub fn next<'a>(&mut self, bodies: &'a [Text]) -> Lane<'a>
        ensures { IsAtStart bodies.entry.now result }
    {
        if self.long {
            if let Some(lane) = self.walk(bodies) {
                return lane;
            }
            self.long = false;
            self.at = 0;
        }
        self.walk(bodies).unwrap_or(Lane {
            text: None,
            rest: &[],
        })
    }

    /// Whether both walks have ended.
    pub fn is_at_end(&self, bodies: &[Text]) -> bool {
        !self.long && self.at >= bodies.len()
    }

    /// The next text of this walk.
    fn walk<'a>(&mut self, bodies: &'a [Text]) -> Option<Lane<'a>>
        ensures { IfSome result (IsAtStart bodies.entry.now) }
    {
        while self.at < bodies.len() {
            let text = self.at;
            self.at += 1;
            let blocks = blocks(&bodies[text]);
            if blocks > 0 && (blocks > self.short) == self.long {
                return Some(Lane {
                    text: Some(text),
                    rest: before_end(&bodies[text]),
                });
            }
        }
        None
    }
}
