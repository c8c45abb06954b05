// What is drawn for a new key-encrypting key.
ghost use Rattle.std.specs.Prelude.{◌≡◌};
ghost use Rattle.bank_orders.specs.Draws.{key_drawn, right_drawn, left_drawn, kk_drawn};

use x_gen::Gen;
use x_mac::Pair;

/// A new key-encrypting key, a data key, and the generator's seed behind them.
#[derive(Clone, Copy)]
pub struct KkDrawn {
    pub pair: Pair,
    pub key: u64,
    pub v: u64,
}

/// The data key is the last that is drawn.
fn key_drawn(pair: Pair, drawn: Option<(u64, Gen)>) -> Option<KkDrawn>
    ensures { result ≡ key_drawn pair drawn }
{
    match drawn {
        Some((key, after)) => Some(KkDrawn {
            pair,
            key,
            v: after.v,
        }),
        None => None,
    }
}

fn right_drawn(moment: u64, left: u64, drawn: Option<(u64, Gen)>) -> Option<KkDrawn>
    ensures { result ≡ right_drawn moment left drawn }
{
    match drawn {
        Some((right, after)) => key_drawn(Pair { left, right }, after.draw_good(moment).ok()),
        None => None,
    }
}

fn left_drawn(moment: u64, single: bool, drawn: Option<(u64, Gen)>) -> Option<KkDrawn>
    ensures { result ≡ left_drawn moment single drawn }
{
    match drawn {
        Some((left, after)) => {
            let next = after.draw_good(moment).ok();
            if single {
                key_drawn(Pair { left, right: left }, next)
            } else {
                right_drawn(moment, left, next)
            }
        }
        None => None,
    }
}

/// The halves of a new key-encrypting key, or the one that is both, and then a data key, all drawn
/// at one moment; `None` where one of the draws gives weak keys alone.
#[tactic(auto, unfolding(crate::specs::Draws::kk_drawn))]
pub(crate) fn kk_drawn(generator: &Gen, moment: u64, single: bool) -> Option<KkDrawn>
    ensures { result ≡ kk_drawn generator.now moment single }
{
    left_drawn(moment, single, generator.draw_good(moment).ok())
}
