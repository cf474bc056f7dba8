// A row put in among the held rows, list by list.
ghost use Rattle.std.specs.Prelude.{◌≡◌, ◌+◌, ◌≤◌, ◌<◌, length};
ghost use Rattle.rbitcoin_net.specs.Memory.{rows_of, SameRows};
ghost use Rattle.rbitcoin_net.specs.Rooms.{row_put, start_with, stored, hold_at, Roomy};

use super::memory::RowMemory;
use super::{FeeHistory, HistoricalFeeBlock};
use slices::moves::copy_within;

// q elements from `from` on go to `to`, the r elements behind them to one place further, and v between.
fn open<T: Copy>(xs: &mut [T], from: usize, to: usize, q: usize, r: usize, v: T)
    requires { (from + q + r ≤ length xs.old) × (to + q + 1 + r ≤ length xs.old) }
    ensures { xs.new ≡ row_put from to q r v xs.old }
{
    if to <= from {
        copy_within(xs, to, from, q);
        copy_within(xs, to + q + 1, from + q, r);
    } else {
        copy_within(xs, to + q + 1, from + q, r);
        copy_within(xs, to, from, q);
    }
    xs[to + q] = v;
}

impl FeeHistory {
    // Where the rows start with one more at rank q.
    #[tactic(auto, using(std::proofs::lemmas::Bool::Decides::nat_tests), unfolding(crate::specs::Rooms::start_with))]
    fn start_with(&self, q: usize) -> usize
        requires { let s = self.now in
            (s.start + s.count ≤ s.analog.capacity) × (s.count < s.analog.capacity) × (q ≤ s.count) }
        ensures { (result ≡ start_with self.now q) × (result + self.now.count < self.now.analog.capacity) }
    {
        let capacity = self.analog.capacity;
        let free = capacity - self.count;
        if q < self.count - q {
            if self.start == 0 {
                return free - free / 4 - 1;
            }
            return self.start - 1;
        }
        if self.start + self.count == capacity {
            return free / 4;
        }
        self.start
    }

    // A row put in at rank q of the held rows, and its bytes added.
    #[tactic(auto, unfolding(crate::specs::Rooms::hold_at))]
    pub(crate) fn hold_at(
        &mut self,
        q: usize,
        height: u32,
        block: HistoricalFeeBlock,
        rows: &mut RowMemory,
    )
        requires { let m = rows.old in
            Roomy q self.old (length m.heights.now) (length m.marks.now) (length m.rates.now) (length m.sizes.now) }
        ensures held { stored self.new (rows_of rows.new)
            ≡ hold_at q height block (stored self.old (rows_of rows.old)) }
        ensures lent { SameRows rows.old rows.new }
    {
        let to = self.start_with(q);
        let from = self.start;
        let behind = self.count - q;
        let rate = block.p10_sat_kvb;
        open(rows.heights, from, to, q, behind, height);
        open(rows.marks, from, to, q, behind, rate.is_some() as u8);
        open(rows.rates, from, to, q, behind, rate.unwrap_or(0));
        open(rows.sizes, from, to, q, behind, block.txstat_bytes);
        self.start = to;
        self.count += 1;
        self.txstat_bytes = self.txstat_bytes.saturating_add(block.txstat_bytes);
    }
}
