// Per-height fee hurdles for historical fee estimates, after fee_history.rs. Heights are kept up to a byte budget; the
// oldest go first. The memory is the caller's: held rows lie together in four lists, sorted by height; the newest
// hashes in two more; hurdles and pairs as the pair windows keep them.
ghost use Rattle.std.specs.Prelude.{◌≡◌, length, IfOk};
ghost use Rattle.rbitcoin_mempool.specs.Counted.{counted};
ghost use Rattle.rbitcoin_mempool.specs.Lists.{SameLists};
ghost use Rattle.rbitcoin_mempool.specs.Memory.{SameLent};
ghost use Rattle.rbitcoin_mempool.specs.Outcome.{verdict};
ghost use Rattle.rbitcoin_net.specs.Cuts.{Truncates};
ghost use Rattle.rbitcoin_net.specs.Hashes.{hash_of};
ghost use Rattle.rbitcoin_net.specs.Inserts.{Inserts, InsertsIfAbsent};
ghost use Rattle.rbitcoin_net.specs.Memory.{rows_of, rows_seen, hashes_of, hashes_seen, SameRows, SameHashes};
ghost use Rattle.rbitcoin_net.specs.Memory.{lent_seen, whole_of, rated_of};
ghost use Rattle.rbitcoin_net.specs.Openings.{Opens, fresh_of, opened_or_empty};
ghost use Rattle.rbitcoin_mempool.specs.Windows.{unopened as unopened_windows};
ghost use Rattle.rbitcoin_net.specs.Rates.{outputs, AnswersRates};
ghost use Rattle.rbitcoin_net.specs.Readers.{Entries, RecentHashes};
ghost use Rattle.rbitcoin_net.specs.Search.{looked, Gets};

mod block_hash;
mod cuts;
mod evict;
mod hashes;
mod inserts;
mod memory;
mod open;
mod rates;
mod readers;
mod refusals;
mod rooms;
mod search;

pub use block_hash::BlockHash;
use inserts::Arrival;
pub use memory::{HashLists, HashMemory, RowLists, RowMemory};
use open::{check_memory, fresh};
use rbitcoin_mempool::answer::{Rate, Refusal};
use rbitcoin_mempool::fee_analog::{AnalogHistory, WindowLists, WindowMemory};
use rbitcoin_mempool::fee_est::{Marked, MarkedMut};
use readers::put_rates;
use slices::moves::copy_front;

// How many block hashes are kept: those of the newest heights that have one.
pub const RECENT_HASHES: usize = 144;

// A held block: its byte count, and its rate, which is there with its number or missing.
#[derive(Clone, Copy)]
pub struct HistoricalFeeBlock {
    pub p10_sat_kvb: Rate,
    pub txstat_bytes: u64,
}

// `count` rows from place `start` on, of the windows' capacity; `hashes` hashes from place 0 on; and while nothing has
// changed since, the last answer of `rates`, numbers and marks. The flag and the lists apart: the state passes to C by
// value.
#[repr(C)]
#[derive(Clone, Copy)]
pub struct FeeHistory {
    pub analog: AnalogHistory,
    pub analog_stale: bool,
    pub start: usize,
    pub count: usize,
    pub txstat_bytes: u64,
    pub budget: u64,
    pub hashes: usize,
    pub kept: bool,
    pub kept_numbers: [u64; 16],
    pub kept_marks: [u8; 16],
}

impl FeeHistory {
    // The fixed empty state: no target, no capacity and no budget.
    pub fn unopened() -> FeeHistory
        ensures { result ≡ fresh_of 0 unopened_windows }
    {
        fresh(0, AnalogHistory::unopened())
    }

    // A history with nothing held, over memory that is left as it is.
    pub fn new(
        budget: u64,
        targets: &[u32],
        capacity: usize,
        rows: RowLists,
        hashes: HashLists,
        windows: WindowLists,
    ) -> Result<FeeHistory, Refusal>
        ensures { let m = lent_seen rows.entry hashes.entry windows.entry in
            Opens budget targets.now capacity m (verdict result) (opened_or_empty result) }
    {
        let analog = AnalogHistory::new(targets, capacity, windows)?;
        check_memory(capacity, rows, hashes)?;
        Ok(fresh(budget, analog))
    }

    // The held block of a height.
    #[tactic(auto, using(crate::proofs::Steps::fitting))]
    pub fn get(&self, height: u32, rows: RowLists) -> Result<Option<HistoricalFeeBlock>, Refusal>
        ensures { Gets self.now (rows_seen rows.entry) height (looked result) }
    {
        self.check_rows(rows)?;
        Ok(self.look_up(height, rows))
    }

    // A connect at `height`: it replaces that height and every height above. Refused, here and below, the state and the
    // memory are left as they are.
    pub fn insert(
        &mut self,
        height: u32,
        block: HistoricalFeeBlock,
        hash: Option<BlockHash>,
        rows: &mut RowMemory,
        hashes: &mut HashMemory,
        windows: &mut WindowMemory,
    ) -> Result<(), Refusal>
        ensures inserted { let before = whole_of self.old rows.old hashes.old windows.old in
            let after = whole_of self.new rows.new hashes.new windows.new in
            Inserts height block (hash_of hash) before (verdict result) after }
        ensures rows_lent { SameRows rows.old rows.new }
        ensures hashes_lent { SameHashes hashes.old hashes.new }
        ensures windows_lent { SameLent windows.old windows.new }
    {
        self.check_lent(rows.lists(), hashes.lists(), windows.lists())?;
        let new = Arrival {
            height,
            block,
            hash,
        };
        self.insert_lent(new, rows, hashes, windows)
    }

    // A preload row: kept only when the height is not held.
    pub fn insert_if_absent(
        &mut self,
        height: u32,
        block: HistoricalFeeBlock,
        hash: Option<BlockHash>,
        rows: &mut RowMemory,
        hashes: &mut HashMemory,
        windows: &mut WindowMemory,
    ) -> Result<(), Refusal>
        ensures inserted { let before = whole_of self.old rows.old hashes.old windows.old in
            let after = whole_of self.new rows.new hashes.new windows.new in
            InsertsIfAbsent height block (hash_of hash) before (verdict result) after }
        ensures rows_lent { SameRows rows.old rows.new }
        ensures hashes_lent { SameHashes hashes.old hashes.new }
        ensures windows_lent { SameLent windows.old windows.new }
    {
        self.check_lent(rows.lists(), hashes.lists(), windows.lists())?;
        let new = Arrival {
            height,
            block,
            hash,
        };
        self.insert_absent_lent(new, rows, hashes, windows)
    }

    // Drop every height above `height` (a reorg found while loading); at the largest height, that height itself.
    #[tactic(auto, using(crate::proofs::Steps::fitting))]
    pub fn truncate_above(
        &mut self,
        height: u32,
        rows: RowLists,
        hashes: HashLists,
    ) -> Result<(), Refusal>
        ensures { let hashes = hashes_seen hashes.entry in
            Truncates height (rows_seen rows.entry) hashes self.old (verdict result) self.new }
    {
        self.check_truncate(rows, hashes)?;
        self.truncate(height, rows, hashes);
        Ok(())
    }

    // The rate of each tracked target, in tracked order, at the front of the caller's lists: up to 1 block at 0.999,
    // farther at 0.95. A scan that finds a rate leaves `scratch` open.
    #[tactic(auto, using(crate::proofs::Steps::fitting))]
    pub fn rates(
        &mut self,
        rows: RowLists,
        windows: &mut WindowMemory,
        scratch: &mut [u64],
        out: &mut MarkedMut,
    ) -> Result<(), Refusal>
        ensures answers { let before = outputs scratch.old out.old.numbers.now out.old.marks.now in
            let after = outputs scratch.new out.new.numbers.now out.new.marks.now in
            AnswersRates (rows_seen rows.entry)
            (rated_of self.old windows.old) before (verdict result) (rated_of self.new windows.new) after }
        ensures lent { SameLent windows.old windows.new }
        ensures out { SameLists out.old out.new }
    {
        self.check_rates(
            rows,
            windows.lists(),
            scratch.len(),
            out.numbers.len(),
            out.marks.len(),
        )?;
        self.keep_rates(rows, windows, scratch);
        let kept = Marked {
            numbers: &self.kept_numbers,
            marks: &self.kept_marks,
        };
        put_rates(out, kept, 0, self.analog.tracked);
        Ok(())
    }

    // The held rows, oldest first, at the front of the caller's lists; how many.
    #[tactic(auto, using(crate::proofs::Steps::fitting))]
    pub fn entries(&self, rows: RowLists, out: &mut RowMemory) -> Result<usize, Refusal>
        ensures written { Entries self.now (rows_seen rows.entry) (rows_of out.old) (rows_of out.new) (counted result) }
        ensures lent { SameRows out.old out.new }
    {
        self.check_entries(rows, out.lists())?;
        let start = self.start;
        let n = self.count;
        let end = start + n;
        copy_front(out.heights, &rows.heights[start..end]);
        copy_front(out.sizes, &rows.sizes[start..end]);
        let mut rates = MarkedMut {
            numbers: &mut *out.rates,
            marks: &mut *out.marks,
        };
        put_rates(&mut rates, rows.marked(), start, n);
        Ok(n)
    }

    // The kept hashes, oldest first, at the front of the caller's lists: heights, and 32 bytes for each; how many.
    #[tactic(auto, using(crate::proofs::Steps::fitting))]
    pub fn recent_hashes(&self, hashes: HashLists, out: &mut HashMemory) -> Result<usize, Refusal>
        ensures written { let hashes = hashes_seen hashes.entry in
            RecentHashes self.now hashes (hashes_of out.old) (hashes_of out.new) (counted result) }
        ensures lent { SameHashes out.old out.new }
    {
        self.check_recent(hashes, out.lists())?;
        let n = self.hashes;
        let end = 32 * n;
        copy_front(out.heights, &hashes.heights[..n]);
        copy_front(out.bytes, &hashes.bytes[..end]);
        Ok(n)
    }
}
