// The lookback of a target, and the lower median of a lent list.
ghost use Rattle.std.specs.Prelude.{◌≡◌, ◌-◌, ◌/◌, [], ◌∷◌, slice_index};
ghost use Rattle.slices.specs.Sorted.{sorted};
ghost use Rattle.rbitcoin_mempool.specs.Answer.{found};
ghost use Rattle.rbitcoin_mempool.specs.Median.{analog_lookback, ln_rate, lookback_part, median_of, lower_median};

use crate::answer::Refusal;

// Lookback length for target N: `clamp(N/4, 3, 144)` hurdle blocks.
#[tactic(auto, unfolding(crate::specs::Median::analog_lookback))]
pub fn analog_lookback(n_blocks: u32) -> usize
    ensures { result ≡ analog_lookback n_blocks }
{
    (n_blocks / 4).clamp(3, 144) as usize
}

#[tactic(auto, unfolding(crate::specs::Median::ln_rate))]
pub fn ln_rate(rate: u64) -> f64
    ensures { result ≡ ln_rate rate }
{
    num::ln::ln(rate.max(1))
}

// The last n of the first t hurdles: a part of the caller's list.
pub fn lookback_part(hurdles: &[u64], t: usize, n: usize) -> &[u64]
    ensures { result.now ≡ lookback_part hurdles.now t n }
{
    let end = t.min(hurdles.len());
    let first = end.saturating_sub(n);
    &hurdles[first..end]
}

fn middle_of_three(a: u64, b: u64, c: u64) -> u64
    ensures { result ≡ slice_index (sorted (a ∷ b ∷ c ∷ [])) 1 }
{
    a.min(b).max(a.max(b).min(c))
}

// The element at (length - 1) / 2 of the sorted list. Three are compared, with no list to select in: they
// are the lookback of each target up to 15.
fn median_of(values: &[u64]) -> u64
    ensures { result ≡ median_of values.now }
{
    if let [a, b, c] = values {
        return middle_of_three(*a, *b, *c);
    }
    slices::order::nth_smallest(values, values.len().saturating_sub(1) / 2)
}

// The lower median; the list is left as found. Refusal 6 of an empty list.
pub fn lower_median(values: &[u64]) -> Result<u64, Refusal>
    ensures { found result ≡ lower_median values.now }
{
    if values.is_empty() {
        return Err(Refusal::Empty);
    }
    Ok(median_of(values))
}

// The median of the n hurdles before place t, 0 where there are none.
pub(crate) fn median_before(hurdles: &[u64], t: usize, n: usize) -> u64
    ensures { result ≡ median_of (lookback_part hurdles.now t n) }
{
    median_of(lookback_part(hurdles, t, n))
}
