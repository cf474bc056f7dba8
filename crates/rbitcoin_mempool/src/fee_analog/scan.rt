// A rate from the pairs of one target.
ghost use Rattle.std.specs.Prelude.{◌≡◌, ◌<◌, ◌≤◌, length, nat_lt};
ghost use Rattle.rbitcoin_mempool.specs.Memory.{windows_seen, ValidWith};
ghost use Rattle.rbitcoin_mempool.specs.Nearest.{neighbors};
ghost use Rattle.rbitcoin_mempool.specs.Pairs.{windows_in};
ghost use Rattle.rbitcoin_mempool.specs.Quantile.{quantile_of};
ghost use Rattle.rbitcoin_mempool.specs.Scan.{now_of, target_found};
ghost use Rattle.rbitcoin_mempool.specs.Windows.{held, target_at, stored_pairs, find_target};

use super::history::AnalogHistory;
use super::median::{ln_rate, median_before};
use super::memory::WindowLists;
use super::nearest::neighbors_quantile;
use super::pairs::Pairs;
use super::window::{Window, analog_ahead};

impl AnalogHistory {
    // The number of the first target of n blocks.
    pub(crate) fn find_target(&self, n: u32) -> Option<usize>
        requires { self.now.tracked ≤ 16 }
        ensures { result ≡ target_found self.now n }
    {
        let ahead = analog_ahead(n);
        self.targets[..self.tracked]
            .iter()
            .position(|target| analog_ahead(*target) == ahead)
    }

    // Whether a target of n blocks is tracked. All are looked at: the branch at which a search ends could not be
    // foretold.
    pub(crate) fn tracks(&self, n: u32) -> bool
        requires { self.now.tracked ≤ 16 }
        ensures { result ≡ nat_lt (find_target self.now n) self.now.tracked }
    {
        let ahead = analog_ahead(n);
        self.targets[..self.tracked].iter().fold(
            false,
            |found, target| found | (analog_ahead(*target) == ahead),
        )
    }

    // The rate of target number d, which has pairs enough.
    pub(crate) fn scan(
        &self,
        d: usize,
        confidence: f64,
        lists: WindowLists,
        scratch: &mut [u64],
    ) -> u64
        requires d_lt_tracked { d < self.now.tracked }
        requires bound { 200 ≤ windows_in self.now.count (target_at self.now d) }
        requires capacity_in_bounds { self.now.capacity ≤ length scratch.old }
        requires valid { ValidWith self.now lists }
        ensures { let s = self.now in
            let now = now_of (held s lists.entry.hurdles.now) (target_at s d) in
            result ≡ quantile_of (neighbors now (stored_pairs (windows_seen s lists.entry) d)) confidence }
    {
        let window = Window::of(self.targets[d]);
        let level = median_before(lists.hurdles, self.start + self.count, window.lookback);
        let first = d * self.capacity + (self.start + window.lookback);
        let end = first + window.count_in(self.count);
        let pairs = Pairs {
            logs: &lists.befores[first..end],
            outcomes: &lists.aheads[first..end],
        };
        neighbors_quantile(pairs, ln_rate(level), confidence, scratch)
    }
}
