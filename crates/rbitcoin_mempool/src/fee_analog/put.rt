// The pair of a new hurdle's window, stored for each target at the place of the window's first hurdle.
ghost use Rattle.std.specs.Prelude.{◌≡◌, ◌<◌};
ghost use Rattle.rbitcoin_mempool.specs.Ends.{newest};
ghost use Rattle.rbitcoin_mempool.specs.Memory.{SameLent, ValidFor};
ghost use Rattle.rbitcoin_mempool.specs.Pairs.{before_at, ahead_at};
ghost use Rattle.rbitcoin_mempool.specs.Windows.{held, each_target, put};

use super::history::AnalogHistory;
use super::median::{ln_rate, median_before};
use super::memory::WindowMemory;
use super::window::{End, Window};

impl AnalogHistory {
    // The pair of target number d at the newest or the oldest window stored, if there is a window.
    fn put_pair(&self, d: usize, end: End, memory: &mut WindowMemory)
        requires d_lt_tracked { d < self.now.tracked }
        requires valid { ValidFor self.now memory.old }
        ensures hurdles { memory.new.hurdles.now ≡ memory.old.hurdles.now }
        ensures befores { let s = self.now in
            let hs = held s memory.old.hurdles.now in
            memory.new.befores.now ≡ put before_at (newest end) s hs d memory.old.befores.now }
        ensures aheads { let s = self.now in
            let hs = held s memory.old.hurdles.now in
            memory.new.aheads.now ≡ put ahead_at (newest end) s hs d memory.old.aheads.now }
        ensures lent { SameLent memory.old memory.new }
    {
        let window = Window::of(self.targets[d]);
        if self.count < window.len() {
            return;
        }
        let p = self.start + window.first_ahead(end, self.count);
        let place = d * self.capacity + p;
        let hurdles = memory.lists().hurdles;
        let before = ln_rate(median_before(hurdles, p, window.lookback));
        let least = slices::order::least_of(&hurdles[p..p + window.ahead]);
        memory.befores[place] = before;
        memory.aheads[place] = least;
    }

    // The pair of each target at the newest or the oldest window stored.
    pub(crate) fn put_pairs(&self, end: End, memory: &mut WindowMemory)
        requires { ValidFor self.now memory.old }
        ensures hurdles { memory.new.hurdles.now ≡ memory.old.hurdles.now }
        ensures befores { let s = self.now in
            let hs = held s memory.old.hurdles.now in
            memory.new.befores.now ≡ each_target (put before_at (newest end) s hs) s.tracked memory.old.befores.now }
        ensures aheads { let s = self.now in
            let hs = held s memory.old.hurdles.now in
            memory.new.aheads.now ≡ each_target (put ahead_at (newest end) s hs) s.tracked memory.old.aheads.now }
        ensures lent { SameLent memory.old memory.new }
    {
        for d in 0..self.tracked {
            self.put_pair(d, end, memory);
        }
    }
}
