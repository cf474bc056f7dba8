// Rows that go because the byte total is above the budget, the oldest first.
ghost use Rattle.std.specs.Prelude.{◌≡◌, ◌+◌, ◌≤◌, ◌<◌, length};
ghost use Rattle.rbitcoin_net.specs.Evictions.{hashed, evict_block, evict_in};
ghost use Rattle.rbitcoin_net.specs.Hashes.{hash_list, Room};
ghost use Rattle.rbitcoin_net.specs.Lent.{Reach};
ghost use Rattle.rbitcoin_net.specs.Memory.{rows_seen, hashes_of, SameHashes};

use super::memory::{HashMemory, RowLists};
use super::{FeeHistory, HistoricalFeeBlock};
use rbitcoin_mempool::fee_analog::End;

impl FeeHistory {
    // The oldest block goes, which has this height, and its hash with it.
    #[tactic(auto, unfolding(crate::specs::Cuts::forget_row, crate::specs::Evictions::evict_row))]
    fn evict_one(&mut self, height: u32, old: HistoricalFeeBlock, hashes: &mut HashMemory)
        requires held { (0 < self.old.count) × (self.old.start < 65536) }
        requires room { Room (hash_list self.old.hashes (hashes_of hashes.old)) }
        ensures evicted { hashed self.new (hashes_of hashes.new)
            ≡ evict_block height old (hashed self.old (hashes_of hashes.old)) }
        ensures lent { SameHashes hashes.old hashes.new }
    {
        let left = hashes.remove(self.hashes, height);
        self.forget(End::Oldest, old);
        self.start += 1;
        self.count -= 1;
        self.hashes = left;
    }

    // Rows go until the total is within the budget; with none left and the total still above it, the total becomes 0.
    pub(crate) fn evict(&mut self, rows: RowLists, hashes: &mut HashMemory)
        requires small { self.old.start + self.old.count ≤ 65536 }
        requires reach { Reach self.old (rows_seen rows) }
        requires room { Room (hash_list self.old.hashes (hashes_of hashes.old)) }
        ensures evicted { hashed self.new (hashes_of hashes.new)
            ≡ evict_in (rows_seen rows.entry) (hashed self.old (hashes_of hashes.old)) }
        ensures lent { SameHashes hashes.old hashes.new }
    {
        self.kept = false;
        for at in self.start..self.start + self.count {
            if self.txstat_bytes <= self.budget {
                return;
            }
            self.evict_one(rows.heights[at], rows.block_at(at), hashes);
        }
        if self.txstat_bytes > self.budget {
            self.txstat_bytes = 0;
        }
    }
}
