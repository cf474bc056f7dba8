// The outcomes of the pairs that looked like now.
ghost use Rattle.std.specs.Prelude.{◌≡◌, ◌≤◌, ◌&&◌, ◌++◌, length, take, drop};
ghost use Rattle.std.specs.Float.Ieee.{le, neg};
ghost use Rattle.slices.specs.Sorted.{below};
ghost use Rattle.rbitcoin_mempool.specs.Nearest.{analog_band, Cut, listed, distances, nearest};
ghost use Rattle.rbitcoin_mempool.specs.Nearest.{outcomes_in_band, outcomes_nearest, neighbors};
ghost use Rattle.rbitcoin_mempool.specs.Quantile.{quantile_of};

use super::pairs::Pairs;
use super::quantile::quantile_of;
use super::{ANALOG_BAND, ANALOG_MIN_NEIGHBORS};

// The band's ratio. `num::ln::ln_1_25` is its logarithm.
pub fn analog_band() -> f64
    ensures { result ≡ analog_band }
{
    ANALOG_BAND
}

// Whether d is at most `limit` away from 0, on either side.
fn is_within(d: f64, limit: f64) -> bool
    ensures { result ≡ (le d limit && le (neg d) limit) }
{
    d <= limit && -d <= limit
}

// The outcomes of the pairs in band to the front of `out`; says how many they are. Each is stored, and the next is
// stored over one that is not in band, so that no store depends on the test.
fn collect_in_band(pairs: Pairs, level: f64, out: &mut [u64]) -> usize
    requires { length pairs.logs.now ≤ length out.old }
    ensures value { result ≡ length (outcomes_in_band level (listed pairs.entry)) }
    ensures out_after { take result out.new ≡ outcomes_in_band level (listed pairs.entry) }
{
    let limit = num::ln::ln_1_25();
    let mut n = 0;
    for (log, outcome) in pairs.logs.iter().zip(pairs.outcomes) {
        out[n] = *outcome;
        if is_within(*log - level, limit) {
            n += 1;
        }
    }
    n
}

// The distances of the logarithms from a level, to the front of `out`. What stood behind them stays.
fn fill_distances(logs: &[f64], level: f64, out: &mut [u64])
    requires { length logs.now ≤ length out.old }
    ensures { out.new ≡ distances level logs.now ++ drop (length logs.now) out.old }
{
    for (i, log) in logs.iter().enumerate() {
        out[i] = num::float::abs_bits(*log - level);
    }
}

// How many elements are below v.
fn count_below(xs: &[u64], v: u64) -> usize
    ensures { result ≡ below v xs.now }
{
    if v == 0 {
        return 0;
    }
    slices::order::count_at_most(xs, v - 1)
}

// The outcomes of as many of the nearest as `out` has places, oldest first: all that are nearer than the cut, and of
// those at the cut the oldest. No other function takes both lists: the distances are in the scratch list.
fn collect_nearest(distances: &[u64], outcomes: &[u64], cut: u64, out: &mut [u64])
    requires as_many { length distances.now ≡ length outcomes.now }
    requires cut { Cut (length out.old) distances.now cut }
    ensures { out.new ≡ nearest (length out.old) distances.now outcomes.now }
{
    let mut at_cut = out.len() - count_below(distances, cut);
    let mut n = 0;
    for (distance, outcome) in distances.iter().zip(outcomes) {
        if *distance < cut {
            out[n] = *outcome;
            n += 1;
        } else if *distance == cut && at_cut > 0 {
            out[n] = *outcome;
            n += 1;
            at_cut -= 1;
        }
    }
}

// The quantile of the outcomes of the 200 pairs whose logarithms are nearest to a level. The cut is the 200th
// least distance.
fn nearest_quantile(pairs: Pairs, level: f64, confidence: f64, scratch: &mut [u64]) -> u64
    requires enough { 200 ≤ length pairs.logs.now }
    requires room { length pairs.logs.now ≤ length scratch.old }
    ensures { result ≡ quantile_of (outcomes_nearest level (listed pairs.entry)) confidence }
{
    fill_distances(pairs.logs, level, scratch);
    let distances = &scratch[..pairs.logs.len()];
    let cut = slices::order::nth_smallest(distances, ANALOG_MIN_NEIGHBORS - 1);
    let mut near = [0u64; ANALOG_MIN_NEIGHBORS];
    collect_nearest(distances, pairs.outcomes, cut, &mut near);
    quantile_of(&near, confidence)
}

// The quantile of the outcomes in band, or of the 200 nearest where fewer are in band.
pub(crate) fn neighbors_quantile(
    pairs: Pairs,
    level: f64,
    confidence: f64,
    scratch: &mut [u64],
) -> u64
    requires enough { 200 ≤ length pairs.logs.now }
    requires room { length pairs.logs.now ≤ length scratch.old }
    ensures { result ≡ quantile_of (neighbors level (listed pairs.entry)) confidence }
{
    let n = collect_in_band(pairs, level, scratch);
    if n < ANALOG_MIN_NEIGHBORS {
        return nearest_quantile(pairs, level, confidence, scratch);
    }
    quantile_of(&scratch[..n], confidence)
}
