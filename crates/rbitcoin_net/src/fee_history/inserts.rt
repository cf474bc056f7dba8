// What `insert` and `insert_if_absent` are made of.
ghost use Rattle.std.specs.Prelude.{false, ◌≡◌, ◌+◌, ◌<◌, length};
ghost use Rattle.rbitcoin_mempool.specs.Memory.{windows_of, SameLent};
ghost use Rattle.rbitcoin_mempool.specs.Outcome.{verdict};
ghost use Rattle.rbitcoin_mempool.specs.Rates.{given};
ghost use Rattle.rbitcoin_mempool.specs.Ends.{newest};
ghost use Rattle.rbitcoin_mempool.specs.Windows.{push_of};
ghost use Rattle.rbitcoin_net.specs.Hashes.{hash_list, hash_of, Room};
ghost use Rattle.rbitcoin_net.specs.Inserts.{Placed, Inserts, InsertsIfAbsent, filed, push_rate, store_in};
ghost use Rattle.rbitcoin_net.specs.Inserts.{insert_in, preload_windows, preload_stale, insert_if_absent_in};
ghost use Rattle.rbitcoin_net.specs.Inserts.{with_windows};
ghost use Rattle.rbitcoin_net.specs.Lent.{lent_refusal};
ghost use Rattle.rbitcoin_net.specs.Memory.{rows_of, hashes_of, lent_of, whole_of, SameRows, SameHashes};
ghost use Rattle.rbitcoin_net.specs.Rooms.{Roomy};
ghost use Rattle.rbitcoin_net.specs.Search.{is_held};

use super::memory::{HashMemory, RowMemory};
use super::search::is_at;
use super::{BlockHash, FeeHistory, HistoricalFeeBlock};
use rbitcoin_mempool::answer::{Rate, Refusal};
use rbitcoin_mempool::fee_analog::{AnalogHistory, End, WindowMemory};
use slices::search::lower_bound;

// A rate that is there goes behind the hurdles or before them.
#[tactic(auto, unfolding(crate::specs::Inserts::push_rate))]
pub(crate) fn push_rate(
    analog: &mut AnalogHistory,
    end: End,
    rate: Rate,
    windows: &mut WindowMemory,
)
    ensures pushed { windows_of analog.new windows.new
        ≡ push_rate (push_of (newest end)) (given rate) false (windows_of analog.old windows.old) }
    ensures lent { SameLent windows.old windows.new }
{
    if let Some(number) = rate {
        let _ = analog.push(end, number, windows);
    }
}

// Whether the hurdles are stale then: a rate between held rows makes them so.
#[tactic(auto, using(crate::proofs::Steps::ranking), unfolding(crate::specs::Inserts::preload_stale))]
fn stale_at(q: usize, n: usize, rate: Rate, stale: bool) -> bool
    ensures { result ≡ preload_stale q n (given rate) stale }
{
    if q == n || q == 0 {
        return stale;
    }
    rate.is_some() || stale
}

// A block that comes in, with its height and its hash, if it has one.
#[derive(Clone, Copy)]
pub(crate) struct Arrival {
    pub(crate) height: u32,
    pub(crate) block: HistoricalFeeBlock,
    pub(crate) hash: Option<BlockHash>,
}

impl FeeHistory {
    // A rate that is there goes behind the hurdles or before them, unless they are stale.
    #[tactic(auto, unfolding(crate::specs::Inserts::push_rate))]
    fn push_rate(&mut self, end: End, rate: Rate, windows: &mut WindowMemory)
        ensures pushed { let s = self.old in windows_of self.new.analog windows.new
            ≡ push_rate (push_of (newest end)) (given rate) s.analog_stale (windows_of s.analog windows.old) }
        ensures state { self.new ≡ with_windows self.new.analog self.old.analog_stale self.old }
        ensures lent { SameLent windows.old windows.new }
    {
        if !self.analog_stale {
            push_rate(&mut self.analog, end, rate, windows);
        }
    }

    // The rate of a preload at rank q of the held rows: behind the hurdles, before them, or nowhere.
    #[tactic(auto, using(crate::proofs::Steps::ranking), unfolding(crate::specs::Inserts::preload_windows))]
    fn push_at(&mut self, q: usize, rate: Rate, windows: &mut WindowMemory)
        ensures pushed { let s = self.old in windows_of self.new.analog windows.new
            ≡ preload_windows q s.count (given rate) s.analog_stale (windows_of s.analog windows.old) }
        ensures state { self.new ≡ with_windows self.new.analog self.old.analog_stale self.old }
        ensures lent { SameLent windows.old windows.new }
    {
        if q == self.count {
            self.push_rate(End::Newest, rate, windows);
        } else if q == 0 {
            self.push_rate(End::Oldest, rate, windows);
        }
    }

    // A row put in at rank q of the held rows, its hash noted, and what is above the budget evicted.
    fn store(&mut self, q: usize, new: Arrival, rows: &mut RowMemory, hashes: &mut HashMemory)
        requires roomy { let m = rows.old in
            Roomy q self.old (length m.heights.now) (length m.marks.now) (length m.rates.now) (length m.sizes.now) }
        requires room { Room (hash_list self.old.hashes (hashes_of hashes.old)) }
        ensures stored { let before = filed self.old (rows_of rows.old) (hashes_of hashes.old) in
            filed self.new (rows_of rows.new) (hashes_of hashes.new)
            ≡ store_in q new.height new.block (hash_of new.hash) before }
        ensures rows { SameRows rows.old rows.new }
        ensures hashes { SameHashes hashes.old hashes.new }
    {
        self.hold_at(q, new.height, new.block, rows);
        self.hashes = hashes.note(self.hashes, new.height, new.hash);
        self.evict(rows.lists(), hashes);
    }

    // What stands from the new height on goes, from place p on, and the new row is the newest.
    fn connect(
        &mut self,
        p: usize,
        new: Arrival,
        rows: &mut RowMemory,
        hashes: &mut HashMemory,
        windows: &mut WindowMemory,
    )
        requires placed { Placed self.old (lent_of rows.old hashes.old windows.old) new.height p }
        requires room { p < self.old.start + self.old.analog.capacity }
        ensures inserted { let before = whole_of self.old rows.old hashes.old windows.old in
            whole_of self.new rows.new hashes.new windows.new
            ≡ insert_in new.height new.block (hash_of new.hash) before }
        ensures rows_lent { SameRows rows.old rows.new }
        ensures hashes_lent { SameHashes hashes.old hashes.new }
        ensures windows_lent { SameLent windows.old windows.new }
    {
        let q = lower_bound(hashes.lists().heights, 0, self.hashes, new.height);
        self.cut_at(p, rows.lists());
        self.hashes = q;
        self.kept = false;
        self.push_rate(End::Newest, new.block.p10_sat_kvb, windows);
        let rank = self.count;
        self.store(rank, new, rows, hashes);
    }

    // The new row, of an absent height, whose place is p.
    fn preload(
        &mut self,
        p: usize,
        new: Arrival,
        rows: &mut RowMemory,
        hashes: &mut HashMemory,
        windows: &mut WindowMemory,
    )
        requires placed { Placed self.old (lent_of rows.old hashes.old windows.old) new.height p }
        requires absent { is_held rows.old.heights.now self.old new.height ≡ false }
        requires room { self.old.count < self.old.analog.capacity }
        ensures inserted { let before = whole_of self.old rows.old hashes.old windows.old in
            whole_of self.new rows.new hashes.new windows.new
            ≡ insert_if_absent_in new.height new.block (hash_of new.hash) before }
        ensures rows_lent { SameRows rows.old rows.new }
        ensures hashes_lent { SameHashes hashes.old hashes.new }
        ensures windows_lent { SameLent windows.old windows.new }
    {
        let rank = p - self.start;
        let rate = new.block.p10_sat_kvb;
        let stale = stale_at(rank, self.count, rate, self.analog_stale);
        self.kept = false;
        self.push_at(rank, rate, windows);
        self.analog_stale = stale;
        self.store(rank, new, rows, hashes);
    }

    // A connect, of memory that serves.
    #[tactic(auto, using(crate::proofs::Connecting::rows_ready))]
    pub(crate) fn insert_lent(
        &mut self,
        new: Arrival,
        rows: &mut RowMemory,
        hashes: &mut HashMemory,
        windows: &mut WindowMemory,
    ) -> Result<(), Refusal>
        requires { lent_refusal self.old (lent_of rows.old hashes.old windows.old) ≡ 0 }
        ensures inserted { let before = whole_of self.old rows.old hashes.old windows.old in
            let after = whole_of self.new rows.new hashes.new windows.new in
            Inserts new.height new.block (hash_of new.hash) before (verdict result) after }
        ensures rows_lent { SameRows rows.old rows.new }
        ensures hashes_lent { SameHashes hashes.old hashes.new }
        ensures windows_lent { SameLent windows.old windows.new }
    {
        let end = self.start + self.count;
        let p = lower_bound(rows.lists().heights, self.start, end, new.height);
        if p - self.start == self.analog.capacity {
            return Err(Refusal::Full);
        }
        self.connect(p, new, rows, hashes, windows);
        Ok(())
    }

    // A preload, of memory that serves.
    #[tactic(auto, using(crate::proofs::Connecting::rows_ready))]
    pub(crate) fn insert_absent_lent(
        &mut self,
        new: Arrival,
        rows: &mut RowMemory,
        hashes: &mut HashMemory,
        windows: &mut WindowMemory,
    ) -> Result<(), Refusal>
        requires { lent_refusal self.old (lent_of rows.old hashes.old windows.old) ≡ 0 }
        ensures inserted { let before = whole_of self.old rows.old hashes.old windows.old in
            let after = whole_of self.new rows.new hashes.new windows.new in
            InsertsIfAbsent new.height new.block (hash_of new.hash) before (verdict result) after }
        ensures rows_lent { SameRows rows.old rows.new }
        ensures hashes_lent { SameHashes hashes.old hashes.new }
        ensures windows_lent { SameLent windows.old windows.new }
    {
        let end = self.start + self.count;
        let p = lower_bound(rows.lists().heights, self.start, end, new.height);
        if is_at(rows.lists().heights, end, p, new.height) {
            return Ok(());
        }
        if self.count == self.analog.capacity {
            return Err(Refusal::Full);
        }
        self.preload(p, new, rows, hashes, windows);
        Ok(())
    }
}
