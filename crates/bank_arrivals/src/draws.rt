// What is drawn for two data keys.
ghost use Rattle.std.specs.Prelude.{◌≡◌};
ghost use Rattle.bank_arrivals.specs.SendingTwins.{second_drawn, first_drawn, twins_drawn};

use x_gen::Gen;

/// Two data keys of 64 bits, and the generator's seed behind them.
#[derive(Clone, Copy)]
pub struct TwinsDrawn {
    pub first: u64,
    pub second: u64,
    pub v: u64,
}

fn second_drawn(first: u64, drawn: Option<(u64, Gen)>) -> Option<TwinsDrawn>
    ensures { result ≡ second_drawn first drawn }
{
    match drawn {
        Some((second, after)) => Some(TwinsDrawn {
            first,
            second,
            v: after.v,
        }),
        None => None,
    }
}

fn first_drawn(moment: u64, drawn: Option<(u64, Gen)>) -> Option<TwinsDrawn>
    ensures { result ≡ first_drawn moment drawn }
{
    match drawn {
        Some((first, after)) => second_drawn(first, after.draw_good(moment).ok()),
        None => None,
    }
}

/// Two data keys, drawn one after the other at one moment; `None` where one of the draws gives weak
/// keys alone.
#[tactic(auto, unfolding(crate::specs::SendingTwins::twins_drawn))]
pub(crate) fn twins_drawn(generator: &Gen, moment: u64) -> Option<TwinsDrawn>
    ensures { result ≡ twins_drawn generator.now moment }
{
    first_drawn(moment, generator.draw_good(moment).ok())
}
