// Rows that are no longer held.
ghost use Rattle.std.specs.Prelude.{◌≡◌, ◌+◌, ◌≤◌, length};
ghost use Rattle.rbitcoin_mempool.specs.Ends.{newest};
ghost use Rattle.rbitcoin_mempool.specs.Windows.{pop_of};
ghost use Rattle.rbitcoin_net.specs.History.{next};
ghost use Rattle.rbitcoin_net.specs.Lent.{Reach};
ghost use Rattle.rbitcoin_net.specs.Memory.{rows_seen, hashes_seen};
ghost use Rattle.rbitcoin_net.specs.Cuts.{forget_block, cut_at, truncate_in};

use super::memory::{HashLists, RowLists};
use super::{FeeHistory, HistoricalFeeBlock};
use rbitcoin_mempool::fee_analog::End;
use slices::search::lower_bound;

impl FeeHistory {
    // The newest or the oldest block is no longer held: its bytes leave the total, and where its rate is there and the
    // hurdles are not stale, the hurdle at that end goes.
    #[tactic(auto, unfolding(crate::specs::Cuts::forget_row))]
    pub(crate) fn forget(&mut self, end: End, old: HistoricalFeeBlock)
        ensures { self.new ≡ forget_block (pop_of (newest end)) old self.old }
    {
        self.txstat_bytes = self.txstat_bytes.saturating_sub(old.txstat_bytes);
        if self.analog_stale {
            return;
        }
        if let Some(_) = old.p10_sat_kvb {
            let _ = self.analog.pop(end);
        }
    }

    // The rows from place p on dropped, the oldest of them first.
    pub(crate) fn cut_at(&mut self, p: usize, rows: RowLists)
        requires place { (self.old.start ≤ p) × (p ≤ self.old.start + self.old.count) }
        requires reach { Reach self.old (rows_seen rows) }
        ensures { self.new ≡ cut_at (rows_seen rows.entry) p self.old }
    {
        for i in p..self.start + self.count {
            self.forget(End::Newest, rows.block_at(i));
        }
        self.count = p - self.start;
    }

    // The rows and the hashes above `height` dropped; at the largest height, those of that height itself.
    #[tactic(auto, using(crate::proofs::Steps::cutting), unfolding(crate::specs::History::next))]
    pub(crate) fn truncate(&mut self, height: u32, rows: RowLists, hashes: HashLists)
        requires reach { Reach self.old (rows_seen rows) }
        requires hashes { self.old.hashes ≤ length hashes.heights.now }
        ensures { self.new ≡ truncate_in height (rows_seen rows.entry) (hashes_seen hashes.entry) self.old }
    {
        let first = height.saturating_add(1);
        let p = lower_bound(rows.heights, self.start, self.start + self.count, first);
        let q = lower_bound(hashes.heights, 0, self.hashes, first);
        self.cut_at(p, rows);
        self.hashes = q;
        self.kept = false;
    }
}
