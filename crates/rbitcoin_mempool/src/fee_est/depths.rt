// The rate of one depth: live flow blended with history, and both with the warm-up share. The rates are parameters of
// their own, as the Rust and C have them.
ghost use Rattle.std.specs.Prelude.{◌≡◌, ◌^◌, ◌<◌, if◌then◌else◌};
ghost use Rattle.num.specs.Float.{of_u64};
ghost use Rattle.rbitcoin_mempool.specs.Rates.{given};
ghost use Rattle.rbitcoin_mempool.specs.Depths.{blend_weight, flow_for_depth, blended, warmed, greater, blend_sat_kvb};
ghost use Rattle.rbitcoin_mempool.specs.Depths.{clamped_share, blend_by, warmup_blend, cold_rate, warm_rate};
ghost use Rattle.rbitcoin_mempool.specs.Depths.{depth_rate_sat_kvb, floored, published_depth_rate};
ghost use Rattle.rbitcoin_mempool.specs.Exact.{InUnit, as_fracs, Within, Both, BoundedRate};
ghost use Rattle.rbitcoin_mempool.specs.Exact.{exact_blend, exact_by, exact_published};

use crate::answer::Rate;

// Blend length in blocks.
pub const BLEND_N0: f64 = 6.0;

// A pool thinner than N blocks still quotes flow where the weight is at least this.
pub const NEAR_BLEND_FLOOR: f64 = 0.5;

// A number of blocks as a float, by the bits of 2^52 + n. The conversion that the compiler makes of a cast would wait
// for what the register had before.
fn as_float(n: u64) -> f64
    requires { n < 2 ^ 52 }
    ensures { result ≡ of_u64 n }
{
    f64::from_bits(0x4330_0000_0000_0000 + n) - 4503599627370496.0
}

// Weight of the live flow against historical blocks, from 0 to 1.
pub fn blend_weight(n_blocks: u32) -> f64
    ensures value { result ≡ blend_weight n_blocks }
    ensures in_unit { InUnit result }
{
    let n = as_float(n_blocks.max(1) as u64);
    num::exp::exp(-(n - 1.0) / BLEND_N0)
}

// Projected inflow with the N-block frontier. Where the pool is thinner than N blocks, a near depth
// keeps the projected rate and a far one has none.
#[tactic(auto, unfolding(crate::specs::Depths::flow_for_depth))]
pub fn flow_for_depth(projected: Rate, frontier: Rate, n_blocks: u32) -> Rate
    ensures { given result ≡ flow_for_depth (given projected) (given frontier) n_blocks }
{
    match frontier {
        Some(f) => Some(projected.map_or(f, |p| p.max(f))),
        None if blend_weight(n_blocks) >= NEAR_BLEND_FLOOR => projected,
        None => None,
    }
}

// v·a + (1-v)·b, rounded.
fn blended(v: f64, a: u64, b: u64) -> u64
    ensures { result ≡ blended v a b }
{
    num::float::round_to_u64(v * num::float::from_u64(a) + (1.0 - v) * num::float::from_u64(b))
}

// (1-v)·b + v·a, rounded, in the Rust's order, as its definition has it: as one function with `blended` it would need a
// law that a sum commutes.
fn warmed(v: f64, b: u64, a: u64) -> u64
    ensures { result ≡ warmed v b a }
{
    num::float::round_to_u64((1.0 - v) * num::float::from_u64(b) + v * num::float::from_u64(a))
}

// The greater of two rates, or the one that is there: a missing rate is less than any other.
fn greater_of(a: Rate, b: Rate) -> Rate
    ensures { given result ≡ greater (given a) (given b) }
{
    a.max(b)
}

// w·flow + (1-w)·hist by the weight of N; a missing side drops out. Less than 1 from the exact blend
// of rates up to 2^50.
pub fn blend_sat_kvb(flow: Rate, hist: Rate, n_blocks: u32) -> Rate
    ensures result_value { given result ≡ blend_sat_kvb (given flow) (given hist) n_blocks }
    ensures both { BoundedRate (given flow) → BoundedRate (given hist)
        → Both (Within 1) (given result) (exact_blend (given flow) (given hist) n_blocks) }
{
    blend_rate(flow, hist, n_blocks)
}

// The value alone, from which the distance is proved.
#[tactic(auto, unfolding(crate::specs::Depths::blend_sat_kvb))]
fn blend_rate(flow: Rate, hist: Rate, n_blocks: u32) -> Rate
    ensures { given result ≡ blend_sat_kvb (given flow) (given hist) n_blocks }
{
    match (flow, hist) {
        (Some(f), Some(h)) => Some(blended(blend_weight(n_blocks), f, h)),
        (flow, hist) => flow.or(hist),
    }
}

// The warm-up share clamped to 0..1, and 0 where it is not finite: by `num`, whose contract the laws read.
#[tactic(auto, unfolding(crate::specs::Depths::clamped_share))]
fn clamped_share(alpha: f64) -> f64
    ensures { result ≡ clamped_share alpha }
{
    if num::float::is_finite(alpha) {
        num::float::clamp(alpha, 0.0, 1.0)
    } else {
        0.0
    }
}

// (1-α)·cold + α·warm. A missing warm side leaves the cold quote; flow with no history answers only
// at α = 1. Less than 1 from the exact blend of rates up to 2^50.
pub fn warmup_blend(alpha: f64, cold: Rate, warm: Rate) -> Rate
    ensures result_value { given result ≡ warmup_blend alpha (given cold) (given warm) }
    ensures both { BoundedRate (given cold) → BoundedRate (given warm)
        → Both (Within 1) (given result) (exact_by (clamped_share alpha) (given cold) (as_fracs (given warm))) }
{
    blend_by(clamped_share(alpha), cold, warm)
}

#[tactic(auto, unfolding(crate::specs::Depths::blend_by))]
fn blend_by(share: f64, cold: Rate, warm: Rate) -> Rate
    ensures { given result ≡ blend_by share (given cold) (given warm) }
{
    match (cold, warm) {
        (Some(c), Some(w)) => Some(warmed(share, c, w)),
        (None, Some(w)) if share >= 1.0 => Some(w),
        (None, Some(_)) => None,
        (cold, None) => cold,
    }
}

// History while flow is cold, which the frontier may only raise.
#[tactic(auto, unfolding(crate::specs::Depths::cold_rate))]
fn cold_rate(frontier: Rate, hist: Rate) -> Rate
    ensures { given result ≡ cold_rate (given frontier) (given hist) }
{
    hist.map(|h| frontier.map_or(h, |f| h.max(f)))
}

// Once flow is warm: flow up to one block, or else history, and farther out their blend.
#[tactic(auto, unfolding(crate::specs::Depths::warm_rate))]
fn warm_rate(n_blocks: u32, flow: Rate, hist: Rate) -> Rate
    ensures { given result ≡ warm_rate n_blocks (given flow) (given hist) }
{
    if n_blocks <= 1 {
        return flow.or(hist);
    }
    blend_sat_kvb(flow, hist, n_blocks)
}

// One target's rate before the monotone pass. `flow_warm` is the Rust's argument, and C's.
#[tactic(auto, unfolding(crate::specs::Depths::depth_rate_sat_kvb))]
pub fn depth_rate_sat_kvb(
    n_blocks: u32,
    flow_warm: bool,
    flow: Rate,
    frontier: Rate,
    hist: Rate,
) -> Rate
    ensures { given result ≡ depth_rate_sat_kvb n_blocks flow_warm (given flow) (given frontier) (given hist) }
{
    if flow_warm {
        return warm_rate(n_blocks, flow, hist);
    }
    cold_rate(frontier, hist)
}

// Whether the confirm floor is part of the warm quote.
fn is_floored(n_blocks: u32, alpha: f64) -> bool
    ensures { result ≡ floored n_blocks alpha }
{
    n_blocks <= 1 && num::float::is_finite(alpha) && alpha > 0.0
}

// The warm quote, with the confirm floor up to one block.
fn floored_rate(n_blocks: u32, alpha: f64, warm: Rate, confirm: Rate) -> Rate
    ensures { given result ≡ (if floored n_blocks alpha then greater (given warm) (given confirm) else given warm) }
{
    if is_floored(n_blocks, alpha) {
        return greater_of(warm, confirm);
    }
    warm
}

// One published depth: cold at α = 0, warm at α = 1. Less than 2 from the exact composition of rates
// up to 2^50.
pub fn published_depth_rate(
    n_blocks: u32,
    alpha: f64,
    flow: Rate,
    frontier: Rate,
    hist: Rate,
    confirm_floor: Rate,
) -> Rate
    ensures result_value { given result
        ≡ published_depth_rate n_blocks alpha (given flow) (given frontier) (given hist) (given confirm_floor) }
    ensures both { BoundedRate (given flow) → BoundedRate (given frontier)
        → BoundedRate (given hist) → BoundedRate (given confirm_floor)
        → Both (Within 2) (given result)
        (exact_published n_blocks alpha (given flow) (given frontier) (given hist) (given confirm_floor)) }
{
    let cold = cold_rate(frontier, hist);
    let warm = warm_rate(n_blocks, flow, hist);
    warmup_blend(
        alpha,
        cold,
        floored_rate(n_blocks, alpha, warm, confirm_floor),
    )
}
