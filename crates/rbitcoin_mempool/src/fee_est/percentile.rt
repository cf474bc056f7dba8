// A percentile of a lent list.
ghost use Rattle.std.specs.Prelude.{◌≡◌};
ghost use Rattle.rbitcoin_mempool.specs.Rates.{given, as_answer};
ghost use Rattle.rbitcoin_mempool.specs.Percentile.{percentile_sat};

use crate::answer::Rate;

// The element at the share `pct` of the sorted list, pct in 0 to 100 and 100 above that; nothing of
// an empty list. The list is left as found.
pub fn percentile_sat(v: &[u64], pct: u8) -> Rate
    ensures { as_answer (given result) ≡ percentile_sat v.now pct }
{
    let n = v.len();
    if n == 0 {
        return None;
    }
    let share = u64::from(pct).min(100);
    let i = ((n - 1) as u64).saturating_mul(share) / 100;
    Some(slices::order::nth_smallest(v, i as usize))
}
