// Capacity, projected inflow and the least rate that fits.
ghost use Rattle.std.specs.Prelude.{◌≡◌, length};
ghost use Rattle.rbitcoin_mempool.specs.Answer.{answer};
ghost use Rattle.rbitcoin_mempool.specs.Rates.{given, as_answer};
ghost use Rattle.rbitcoin_mempool.specs.Capacity.{capacity_wu, horizon_secs, inflow_horizon_secs, inclusion_confidence};
ghost use Rattle.rbitcoin_mempool.specs.Capacity.{effective_capacity_wu, inflow_suffix_wu, stressed_wu, fits_with};
ghost use Rattle.rbitcoin_mempool.specs.Capacity.{least_fitting, min_rate_for_capacity};

use super::edges::{bucket_count, first_bucket_above};
use crate::answer::{Rate, Refusal, lesser_of};

// Consensus block weight (WU), the capacity of one block.
pub const BLOCK_WEIGHT_WU: u64 = 4_000_000;

// Seconds per planned block.
pub const SECONDS_PER_BLOCK: u64 = 600;

// Inclusion confidence up to N = 1, and from N = 2 on.
pub const CONFIDENCE_NEAR: f64 = 0.999;

pub const CONFIDENCE_FAR: f64 = 0.99;

// The multiple of the inflow up to N = 1.
pub const LAMBDA_AT_NEAR: f64 = 2.0;

// The inflow is projected at most this far.
pub const INFLOW_HORIZON_CAP_SECS: u64 = 600;

// The capacity of N blocks, N at least 1. The Rust has a function for each of the two products.
pub fn capacity_wu(n_blocks: u32) -> u64
    ensures { result ≡ capacity_wu n_blocks }
{
    u64::from(n_blocks.max(1)).saturating_mul(BLOCK_WEIGHT_WU)
}

// The seconds that N blocks are planned to take.
pub fn horizon_secs(n_blocks: u32) -> u64
    ensures { result ≡ horizon_secs n_blocks }
{
    u64::from(n_blocks.max(1)).saturating_mul(SECONDS_PER_BLOCK)
}

// The same, at most ten minutes: how far the inflow is projected.
pub fn inflow_horizon_secs(n_blocks: u32) -> u64
    ensures { result ≡ inflow_horizon_secs n_blocks }
{
    horizon_secs(n_blocks).min(INFLOW_HORIZON_CAP_SECS)
}

// 0.999 up to N = 1 and 0.99 farther out.
pub fn inclusion_confidence(n_blocks: u32) -> f64
    ensures { result ≡ inclusion_confidence n_blocks }
{
    if n_blocks <= 1 {
        CONFIDENCE_NEAR
    } else {
        CONFIDENCE_FAR
    }
}

// The capacity times the share to fill: 0.8 of a block up to N = 1, and 0.95 of N blocks from 2 on.
#[tactic(auto, unfolding(crate::specs::Capacity::effective_capacity_wu))]
pub fn effective_capacity_wu(n_blocks: u32) -> u64
    ensures { result ≡ effective_capacity_wu n_blocks }
{
    if n_blocks <= 1 {
        3_200_000
    } else {
        3_800_000 * (n_blocks as u64)
    }
}

// The weight that comes in over a time from each bucket through the open one.
pub fn inflow_suffix_wu(inflow_wu_per_s_by_bucket: &[u64], horizon_secs: u64) -> [u64; 403]
    ensures { result ≡ inflow_suffix_wu inflow_wu_per_s_by_bucket.now horizon_secs }
{
    let mut suffix = [0u64; 403];
    for i in (0..inflow_wu_per_s_by_bucket.len().min(bucket_count())).rev() {
        let wu = inflow_wu_per_s_by_bucket[i].saturating_mul(horizon_secs);
        suffix[i] = suffix[i + 1].saturating_add(wu);
    }
    suffix
}

// The inflow that the search reckons with: doubled at N up to 1.
#[tactic(auto, unfolding(crate::specs::Capacity::stressed_wu))]
fn stressed_wu(n_blocks: u32, sum: u64) -> u64
    ensures { result ≡ stressed_wu n_blocks sum }
{
    let wu = num::float::from_u64(sum);
    if n_blocks <= 1 {
        num::float::to_u64(wu * LAMBDA_AT_NEAR)
    } else {
        num::float::to_u64(wu)
    }
}

// Whether a candidate fits with its stock, the suffix sums being at hand.
#[tactic(auto, unfolding(crate::specs::Capacity::fits_with))]
fn fits_with(suffix: &[u64; 403], n_blocks: u32, candidate: u64, stock: u64) -> bool
    ensures { result ≡ fits_with suffix.now n_blocks candidate stock }
{
    let i = first_bucket_above(candidate);
    let wu = stressed_wu(n_blocks, suffix[i]);
    stock.saturating_add(wu) <= effective_capacity_wu(n_blocks)
}

// The least candidate that fits. Every one is tried: they come in any order, and fit need not be monotone. Candidates
// and stock are lists of their own, as C lends them.
// A chain of `zip`, `filter` and `min` took nearly twice as long.
fn least_fitting(candidates: &[u64], stock: &[u64], suffix: &[u64; 403], n_blocks: u32) -> Rate
    requires { length candidates.now ≡ length stock.now }
    ensures { as_answer (given result) ≡ least_fitting (fits_with suffix.now n_blocks) candidates.now stock.now }
{
    let mut least: Rate = None;
    for i in (0..candidates.len()).rev() {
        let candidate = candidates[i];
        if fits_with(suffix, n_blocks, candidate, stock[i]) {
            least = lesser_of(Some(candidate), least);
        }
    }
    least
}

// The least candidate at which the stock above it and the projected inflow above it fit the
// effective capacity of N blocks. Refusal 1: candidates and stock of unequal length.
#[tactic(auto, unfolding(crate::specs::Capacity::min_rate_for_capacity, crate::specs::Capacity::fits))]
pub fn min_rate_for_capacity(
    candidate_rates: &[u64],
    stock_above_wu: &[u64],
    inflow_wu_per_s_by_bucket: &[u64],
    n_blocks: u32,
) -> Result<Rate, Refusal>
    ensures { let inflow = inflow_wu_per_s_by_bucket.now in
        answer result ≡ min_rate_for_capacity candidate_rates.now stock_above_wu.now inflow n_blocks }
{
    if candidate_rates.len() != stock_above_wu.len() {
        return Err(Refusal::Unpaired);
    }
    let suffix = inflow_suffix_wu(inflow_wu_per_s_by_bucket, inflow_horizon_secs(n_blocks));
    Ok(least_fitting(candidate_rates, stock_above_wu, &suffix, n_blocks))
}
