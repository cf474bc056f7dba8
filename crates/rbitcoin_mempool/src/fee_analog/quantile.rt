// Log-rate interpolation between the two order statistics around a confidence.
ghost use Rattle.std.specs.Prelude.{◌≡◌, ◌-◌};
ghost use Rattle.num.specs.Float.{to_u64};
ghost use Rattle.rbitcoin_mempool.specs.Answer.{found};
ghost use Rattle.rbitcoin_mempool.specs.Quantile.{historical_confidence_far, in_unit};
ghost use Rattle.rbitcoin_mempool.specs.Quantile.{rank_of, lower_place, upper_place, blend_of};
ghost use Rattle.rbitcoin_mempool.specs.Quantile.{between_neighbors, quantile_of};
ghost use Rattle.rbitcoin_mempool.specs.Quantile.{log_quantile, log_quantile_leaves};

use super::HISTORICAL_CONFIDENCE_FAR;
use crate::answer::Refusal;

// The confidence for targets past one block.
pub fn historical_confidence_far() -> f64
    ensures { result ≡ historical_confidence_far }
{
    HISTORICAL_CONFIDENCE_FAR
}

fn rank_of(confidence: f64, n: usize) -> f64
    ensures { result ≡ rank_of confidence n }
{
    let m = num::float::from_u64(n as u64);
    num::float::clamp(confidence * m, 1.0, m)
}

// The place of a whole rank, which counts from 1.
fn place_of(rank: f64) -> usize
    ensures { result ≡ to_u64 rank - 1 }
{
    num::float::to_u64(rank).saturating_sub(1) as usize
}

// The places of the two neighbours of a rank.
#[tactic(auto, unfolding(crate::specs::Quantile::lower_place, crate::specs::Quantile::upper_place))]
fn places_around(rank: f64) -> (usize, usize)
    ensures { (result.0 ≡ lower_place rank) × (result.1 ≡ upper_place rank) }
{
    (
        place_of(num::float::floor(rank)),
        place_of(num::float::ceil(rank)),
    )
}

fn blend(a: u64, b: u64, frac: f64) -> u64
    ensures { result ≡ blend_of a b frac }
{
    let blended = (1.0 - frac) * num::ln::ln(a) + frac * num::ln::ln(b);
    num::float::round_to_u64(num::exp::exp(blended))
}

// Between two neighbours; a rank that lands on one hurdle, including a repeated one, stays there.
fn between_neighbors(a: u64, b: u64, rank: f64) -> u64
    ensures { result ≡ between_neighbors a b rank }
{
    if a == b {
        return a;
    }
    blend(a, b, rank - num::float::floor(rank))
}

// The quantile of a list in any order, which is left as found: its two neighbours are selected. Where enough elements
// are at most the lower one, it is the upper one too.
pub(crate) fn quantile_of(xs: &[u64], confidence: f64) -> u64
    ensures { result ≡ quantile_of xs.now confidence }
{
    let rank = rank_of(confidence, xs.len());
    let (lower, upper) = places_around(rank);
    let a = slices::order::nth_smallest(xs, lower);
    if lower <= upper && upper < slices::order::count_at_most(xs, a) {
        return between_neighbors(a, a, rank);
    }
    let b = slices::order::nth_smallest(xs, upper);
    between_neighbors(a, b, rank)
}

// A confidence from 0 to 1, and no NaN.
pub(crate) fn in_unit(confidence: f64) -> bool
    ensures { result ≡ in_unit confidence }
{
    (0.0..=1.0).contains(&confidence)
}

// The quantile; the list is left in ascending order. Refusal 6 of an empty list, then 7 of a confidence that is NaN or
// outside 0 to 1; a refusal leaves the list as found.
pub fn log_quantile(outcomes: &mut [u64], confidence: f64) -> Result<u64, Refusal>
    ensures result_value { found result ≡ log_quantile outcomes.old confidence }
    ensures outcomes_after { outcomes.new ≡ log_quantile_leaves outcomes.old confidence }
{
    if outcomes.is_empty() {
        return Err(Refusal::Empty);
    }
    if !in_unit(confidence) {
        return Err(Refusal::Confidence);
    }
    slices::sort::sort(outcomes);
    let rank = rank_of(confidence, outcomes.len());
    let (lower, upper) = places_around(rank);
    let a = outcomes.get(lower).copied().unwrap_or(0);
    let b = outcomes.get(upper).copied().unwrap_or(0);
    Ok(between_neighbors(a, b, rank))
}
