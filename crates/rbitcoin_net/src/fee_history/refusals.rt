// What calls on a history are refused with.
ghost use Rattle.std.specs.Prelude.{◌≡◌, ◌*◌, cond, ltb, length};
ghost use Rattle.rbitcoin_mempool.specs.Outcome.{refusal_of};
ghost use Rattle.rbitcoin_mempool.specs.Windows.{or_else};
ghost use Rattle.rbitcoin_net.specs.Lent.{state_refusal, rows_refusal, rows_refusal_of, hashes_refusal, lent_refusal};
ghost use Rattle.rbitcoin_net.specs.Memory.{rows_seen, hashes_seen, lent_seen, rated_seen};
ghost use Rattle.rbitcoin_net.specs.Cuts.{truncate_refusal_of};
ghost use Rattle.rbitcoin_net.specs.Rates.{rates_refusal_of};
ghost use Rattle.rbitcoin_net.specs.Readers.{entries_refusal_of, recent_refusal_of};

use super::memory::{HashLists, RowLists};
use super::{FeeHistory, RECENT_HASHES};
use rbitcoin_mempool::answer::Refusal;
use rbitcoin_mempool::fee_analog::WindowLists;

impl RowLists<'_> {
    // Rows for a capacity.
    #[tactic(auto, using(std::proofs::lemmas::Bool::Decides::nat_tests), unfolding(crate::specs::Lent::rows_refusal))]
    pub(crate) fn check(&self, capacity: usize) -> Result<(), Refusal>
        ensures { let m = rows_seen self.now in
            refusal_of result
            ≡ rows_refusal capacity (length m.heights) (length m.marks) (length m.rates) (length m.sizes) }
    {
        if self.heights.len() < capacity
            || self.marks.len() < capacity
            || self.rates.len() < capacity
            || self.sizes.len() < capacity
        {
            return Err(Refusal::Short);
        }
        Ok(())
    }
}

impl HashLists<'_> {
    // So many heights, and 32 bytes for each.
    #[tactic(auto, using(std::proofs::lemmas::Bool::Decides::nat_tests))]
    pub(crate) fn check(&self, count: usize) -> Result<(), Refusal>
        ensures { let z = hashes_seen self.now in
            refusal_of result ≡ cond (ltb (length z.heights) count) 5 (cond (ltb (length z.bytes) (32 * count)) 5 0) }
    {
        if self.heights.len() < count || self.bytes.len() / 32 < count {
            return Err(Refusal::Short);
        }
        Ok(())
    }
}

impl FeeHistory {
    // A state that no call returns.
    #[tactic(auto, using(crate::proofs::Steps::refusal_steps), unfolding(crate::specs::Lent::state_refusal))]
    pub(crate) fn check(&self) -> Result<(), Refusal>
        ensures { refusal_of result ≡ state_refusal self.now }
    {
        let analog = self.analog;
        analog.check()?;
        if self.start > analog.capacity
            || self.count > analog.capacity - self.start
            || self.hashes > RECENT_HASHES
        {
            return Err(Refusal::Short);
        }
        Ok(())
    }

    // A call that lends the rows.
    #[tactic(auto, using(crate::proofs::Steps::refusal_steps))]
    pub(crate) fn check_rows(&self, rows: RowLists) -> Result<(), Refusal>
        ensures { refusal_of result ≡ rows_refusal_of self.now (rows_seen rows.entry) }
    {
        self.check()?;
        rows.check(self.analog.capacity)
    }

    // A call that lends the hashes.
    #[tactic(auto, using(crate::proofs::Steps::refusal_steps))]
    pub(crate) fn check_hashes(&self, hashes: HashLists) -> Result<(), Refusal>
        ensures { let z = hashes_seen hashes.entry in
            refusal_of result ≡ or_else (state_refusal self.now) (hashes_refusal (length z.heights) (length z.bytes)) }
    {
        self.check()?;
        hashes.check(RECENT_HASHES)
    }

    // `entries`: the rows, and the output lists.
    #[tactic(auto, using(crate::proofs::Steps::refusal_steps), unfolding(crate::specs::Readers::entries_refusal))]
    pub(crate) fn check_entries(&self, rows: RowLists, out: RowLists) -> Result<(), Refusal>
        ensures { refusal_of result ≡ entries_refusal_of self.now (rows_seen rows.entry) (rows_seen out.entry) }
    {
        if out.rates.len() != out.marks.len() {
            return Err(Refusal::Unpaired);
        }
        self.check_rows(rows)?;
        out.check(self.count)
    }

    // `recent_hashes`: the hashes, and the output lists.
    #[tactic(auto, using(crate::proofs::Steps::refusal_steps), unfolding(crate::specs::Readers::recent_refusal))]
    pub(crate) fn check_recent(&self, hashes: HashLists, out: HashLists) -> Result<(), Refusal>
        ensures { refusal_of result ≡ recent_refusal_of self.now (hashes_seen hashes.entry) (hashes_seen out.entry) }
    {
        self.check_hashes(hashes)?;
        out.check(self.hashes)
    }

    // `truncate_above`: the rows and the hashes.
    #[tactic(auto, using(crate::proofs::Steps::refusal_steps), unfolding(crate::specs::Cuts::truncate_refusal))]
    pub(crate) fn check_truncate(&self, rows: RowLists, hashes: HashLists) -> Result<(), Refusal>
        ensures { refusal_of result ≡ truncate_refusal_of self.now (rows_seen rows.entry) (hashes_seen hashes.entry) }
    {
        self.check_rows(rows)?;
        hashes.check(RECENT_HASHES)
    }

    // A call that lends all.
    #[tactic(auto, using(crate::proofs::Steps::window_steps), unfolding(crate::specs::Lent::lent_refusal))]
    pub(crate) fn check_lent(
        &self,
        rows: RowLists,
        hashes: HashLists,
        windows: WindowLists,
    ) -> Result<(), Refusal>
        ensures { refusal_of result ≡ lent_refusal self.now (lent_seen rows.entry hashes.entry windows.entry) }
    {
        self.check_rows(rows)?;
        hashes.check(RECENT_HASHES)?;
        self.analog.check_sizes(windows)
    }

    // `rates`: the rows, the windows' memory, the scratch, and the output lists.
    #[tactic(auto, using(crate::proofs::Steps::window_steps), unfolding(crate::specs::Rates::rates_refusal))]
    pub(crate) fn check_rates(
        &self,
        rows: RowLists,
        windows: WindowLists,
        scratch: usize,
        numbers: usize,
        marks: usize,
    ) -> Result<(), Refusal>
        ensures { let x = rated_seen self.now windows.entry in
            refusal_of result ≡ rates_refusal_of (rows_seen rows.entry) x scratch numbers marks }
    {
        if numbers != marks {
            return Err(Refusal::Unpaired);
        }
        self.check_rows(rows)?;
        let analog = self.analog;
        analog.check_sizes(windows)?;
        if scratch < analog.capacity || numbers < analog.tracked {
            return Err(Refusal::Short);
        }
        Ok(())
    }
}
