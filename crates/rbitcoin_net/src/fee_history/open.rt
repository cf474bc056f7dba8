// What an opening is made of.
ghost use Rattle.std.specs.Prelude.{◌≡◌, length};
ghost use Rattle.rbitcoin_mempool.specs.Outcome.{refusal_of};
ghost use Rattle.rbitcoin_net.specs.Memory.{rows_seen, hashes_seen};
ghost use Rattle.rbitcoin_net.specs.Openings.{fresh_of, memory_refusal};

use super::memory::{HashLists, RowLists};
use super::{FeeHistory, RECENT_HASHES};
use rbitcoin_mempool::answer::Refusal;
use rbitcoin_mempool::fee_analog::AnalogHistory;

// A state with nothing held.
#[tactic(auto, unfolding(crate::specs::Openings::fresh_of))]
pub(crate) fn fresh(budget: u64, analog: AnalogHistory) -> FeeHistory
    ensures { result ≡ fresh_of budget analog }
{
    FeeHistory {
        analog,
        analog_stale: false,
        start: 0,
        count: 0,
        txstat_bytes: 0,
        budget,
        hashes: 0,
        kept: false,
        kept_numbers: [0u64; 16],
        kept_marks: [0u8; 16],
    }
}

// Rows and hashes for a capacity.
#[tactic(auto, using(crate::proofs::Steps::refusal_steps), unfolding(crate::specs::Openings::memory_refusal))]
pub(crate) fn check_memory(
    capacity: usize,
    rows: RowLists,
    hashes: HashLists,
) -> Result<(), Refusal>
    ensures { let m = rows_seen rows.entry in
        let z = hashes_seen hashes.entry in
        refusal_of result
        ≡ memory_refusal capacity (length m.heights) (length m.marks) (length m.rates) (length m.sizes)
        (length z.heights) (length z.bytes) }
{
    rows.check(capacity)?;
    hashes.check(RECENT_HASHES)
}
