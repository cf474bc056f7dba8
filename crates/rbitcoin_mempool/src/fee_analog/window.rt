// The windows of a target, and the two ends at which hurdles come and go.
ghost use Rattle.std.specs.Prelude.{◌≡◌, ◌+◌, ◌-◌, ◌<◌, ◌≤◌, if◌then◌else◌};
ghost use Rattle.rbitcoin_mempool.specs.Ends.{newest};
ghost use Rattle.rbitcoin_mempool.specs.Median.{analog_lookback};
ghost use Rattle.rbitcoin_mempool.specs.Pairs.{ahead_of};

use super::median::analog_lookback;

#[derive(Clone, Copy, Debug, PartialEq, Eq)]
pub enum End {
    Oldest,
    Newest,
}

impl End {
    // How many hurdles go in front when the one at this end goes.
    pub(crate) fn popped_in_front(self) -> usize
        ensures { (result ≡ (if newest self then 0 else 1)) × (result ≤ 1) }
    {
        match self {
            End::Newest => 0,
            End::Oldest => 1,
        }
    }
}

// How many hurdles a window has ahead.
#[tactic(auto, unfolding(crate::specs::Pairs::ahead_of))]
pub(crate) fn analog_ahead(target: u32) -> usize
    ensures { (result ≡ ahead_of target) × (result < 4294967296) }
{
    target.max(1) as usize
}

// What a window of a target takes: the hurdles of its lookback, and behind them those ahead.
#[derive(Clone, Copy)]
pub(crate) struct Window {
    pub lookback: usize,
    pub ahead: usize,
    ghost short: { lookback ≤ 144 },
    ghost fits: { ahead < 4294967296 },
    ghost some: { 1 ≤ ahead },
}

impl Window {
    #[tactic(auto, unfolding(crate::specs::Median::analog_lookback, crate::specs::Pairs::ahead_of))]
    pub(crate) fn of(target: u32) -> Window
        ensures lookback { result.lookback ≡ analog_lookback target }
        ensures ahead { result.ahead ≡ ahead_of target }
    {
        Window {
            lookback: analog_lookback(target),
            ahead: analog_ahead(target),
        }
    }

    pub(crate) fn len(self) -> usize
        ensures { result ≡ self.lookback + self.ahead }
    {
        self.lookback + self.ahead
    }

    // How many windows lie in a count of hurdles.
    pub(crate) fn count_in(self, hurdles: usize) -> usize
        requires { hurdles ≤ 65536 }
        ensures { result ≡ hurdles + 1 - (self.lookback + self.ahead) }
    {
        (hurdles + 1).saturating_sub(self.len())
    }

    // Where the newest or the oldest window in a count of hurdles has the first of those ahead.
    pub(crate) fn first_ahead(self, end: End, hurdles: usize) -> usize
        requires { self.lookback + self.ahead ≤ hurdles }
        ensures { result ≡ (if newest end then hurdles - self.ahead else self.lookback) }
    {
        match end {
            End::Newest => hurdles - self.ahead,
            End::Oldest => self.lookback,
        }
    }
}
