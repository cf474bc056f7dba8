// What calls on pair windows are refused with.
ghost use Rattle.std.specs.Prelude.{◌≡◌, length};
ghost use Rattle.rbitcoin_mempool.specs.Outcome.{refusal_of};
ghost use Rattle.rbitcoin_mempool.specs.Windows.{state_refusal, size_refusal, lent_refusal};
ghost use Rattle.rbitcoin_mempool.specs.Windows.{push_refusal, rebuild_refusal};
ghost use Rattle.rbitcoin_mempool.specs.Scan.{scan_refusal};

use super::history::AnalogHistory;
use super::memory::WindowLists;
use crate::answer::Refusal;

impl AnalogHistory {
    // A state that no call returns.
    #[tactic(auto, using(crate::proofs::Refusals::size_tests), unfolding(crate::specs::Windows::state_refusal))]
    pub fn check(&self) -> Result<(), Refusal>
        ensures { refusal_of result ≡ state_refusal self.now }
    {
        if self.tracked > 16 {
            return Err(Refusal::TooManyTargets);
        }
        if self.capacity > 65536
            || self.start > self.capacity
            || self.count > self.capacity - self.start
        {
            return Err(Refusal::Short);
        }
        Ok(())
    }

    // Memory as long as the capacity asks. The product may pass u64, of a state that `check` refuses: no list is
    // that long.
    #[tactic(auto, using(crate::proofs::Refusals::size_tests), unfolding(crate::specs::Windows::size_refusal))]
    pub fn check_sizes(&self, lent: WindowLists) -> Result<(), Refusal>
        ensures { let m = lent.entry in
            refusal_of result
            ≡ size_refusal self.now (length m.hurdles.now) (length m.befores.now) (length m.aheads.now) }
    {
        let places = self.tracked.saturating_mul(self.capacity);
        if lent.hurdles.len() < self.capacity
            || lent.befores.len() < places
            || lent.aheads.len() < places
        {
            return Err(Refusal::Short);
        }
        Ok(())
    }

    // A call that lends memory.
    #[tactic(auto, using(crate::proofs::Refusals::refusal_steps), unfolding(crate::specs::Windows::lent_refusal))]
    pub(crate) fn check_lent(&self, lent: WindowLists) -> Result<(), Refusal>
        ensures { let m = lent.entry in
            refusal_of result
            ≡ lent_refusal self.now (length m.hurdles.now) (length m.befores.now) (length m.aheads.now) }
    {
        self.check()?;
        self.check_sizes(lent)
    }

    #[tactic(auto, using(crate::proofs::Refusals::refusal_steps), unfolding(crate::specs::Windows::push_refusal))]
    pub(crate) fn check_push(&self, lent: WindowLists) -> Result<(), Refusal>
        ensures { let m = lent.entry in
            refusal_of result
            ≡ push_refusal self.now (length m.hurdles.now) (length m.befores.now) (length m.aheads.now) }
    {
        self.check_lent(lent)?;
        if self.count == self.capacity {
            return Err(Refusal::Full);
        }
        Ok(())
    }

    #[tactic(auto, using(crate::proofs::Refusals::refusal_steps), unfolding(crate::specs::Windows::rebuild_refusal))]
    pub(crate) fn check_rebuild(&self, n: usize, lent: WindowLists) -> Result<(), Refusal>
        ensures { let m = lent.entry in
            refusal_of result
            ≡ rebuild_refusal n self.now (length m.hurdles.now) (length m.befores.now) (length m.aheads.now) }
    {
        self.check_lent(lent)?;
        if self.capacity < n {
            return Err(Refusal::Full);
        }
        Ok(())
    }

    // A scan that lends scratch of this size too.
    #[tactic(auto, using(crate::proofs::Refusals::refusal_steps), unfolding(crate::specs::Scan::scan_refusal))]
    pub(crate) fn check_scan(&self, lent: WindowLists, scratch: usize) -> Result<(), Refusal>
        ensures { let m = lent.entry in
            refusal_of result
            ≡ scan_refusal self.now (length m.hurdles.now) (length m.befores.now) (length m.aheads.now) scratch }
    {
        self.check_lent(lent)?;
        if scratch < self.capacity {
            return Err(Refusal::Short);
        }
        Ok(())
    }
}
