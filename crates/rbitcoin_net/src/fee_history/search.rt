// The place of a height among the held rows, and the block there.
ghost use Rattle.std.specs.Prelude.{◌≡◌, ◌+◌, ◌-◌, ◌≤◌, ◌<◌, length};
ghost use Rattle.rbitcoin_net.specs.Lent.{block_at, Reach};
ghost use Rattle.rbitcoin_net.specs.Search.{is_at, looked_up, look_up_in};
ghost use Rattle.rbitcoin_net.specs.Memory.{rows_seen};

use super::memory::RowLists;
use super::{FeeHistory, HistoricalFeeBlock};
use slices::search::lower_bound;

// The row at a place before `end` is of that height.
#[tactic(auto, using(std::proofs::lemmas::Bool::Decides::nat_tests), unfolding(crate::specs::Search::is_at))]
pub(crate) fn is_at(heights: &[u32], end: usize, place: usize, height: u32) -> bool
    requires { end ≤ length heights.now }
    ensures { result ≡ is_at heights.now end height place }
{
    place < end && heights[place] == height
}

impl RowLists<'_> {
    #[tactic(auto, using(crate::proofs::Steps::reading))]
    pub(crate) fn block_at(&self, at: usize) -> HistoricalFeeBlock
        requires { let m = self.now in
            (at < length m.marks.now) × (at < length m.rates.now) × (at < length m.sizes.now) }
        ensures { result ≡ block_at (rows_seen self.now) at }
    {
        HistoricalFeeBlock {
            p10_sat_kvb: self.marked().rate_at(at),
            txstat_bytes: self.sizes[at],
        }
    }
}

impl FeeHistory {
    // The held block of a height.
    #[tactic(auto, using(crate::proofs::Steps::looking))]
    pub(crate) fn look_up(&self, height: u32, rows: RowLists) -> Option<HistoricalFeeBlock>
        requires { Reach self.now (rows_seen rows) }
        ensures { looked_up result ≡ look_up_in self.now (rows_seen rows.entry) height }
    {
        let end = self.start + self.count;
        let place = lower_bound(rows.heights, self.start, end, height);
        if is_at(rows.heights, end, place, height) {
            Some(rows.block_at(place))
        } else {
            None
        }
    }
}
