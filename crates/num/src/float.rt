// Rust's casts, comparisons and rounding of `f64`, for every argument.
ghost use Rattle.std.specs.Prelude.{◌≡◌, false, T, pos};
ghost use Rattle.std.specs.Float.{fin};
ghost use Rattle.std.specs.Float.Ieee.{lt};
ghost use Rattle.num.specs.Float.{of_u64, to_u64, is_finite, max_of, clamp_of, floor_of, ceil_of, abs_bits};
ghost use Rattle.num.specs.Round.{round_to_u64};

// From 2^52 on an `f64` is whole.
const ALL_WHOLE: f64 = 4503599627370496.0;

// Rust's `n as f64`.
pub fn from_u64(n: u64) -> f64
    ensures { result ≡ of_u64 n }
{
    std::num::nearest_u64_to_f64(n)
}

// The whole part of x, for x above 0 and below 2^52. Adding 2^52 rounds x to a whole number at most a half away; where
// that is above x, one less is the whole part.
#[tactic(auto, using(crate::proofs::Floors::landing_laws))]
fn whole_below(x: f64) -> f64
    requires above_zero { T (lt (fin false 0 (pos 0)) x) }
    requires below_whole { T (lt x (fin false 1 (pos 52))) }
    ensures { result ≡ of_u64 (to_u64 x) }
{
    let k = x + ALL_WHOLE - ALL_WHOLE;
    if x < k { k - 1.0 } else { k }
}

// Rust's `x as u64`. Below 2^52 the whole part by a sum is faster than the kit's, which shifts bits; a cast to a signed
// word is one instruction.
#[tactic(auto, using(crate::proofs::Floors::cast_laws, std::proofs::lemmas::Int::ints))]
pub fn to_u64(x: f64) -> u64
    ensures { result ≡ to_u64 x }
{
    if x > 0.0 && x < ALL_WHOLE {
        return whole_below(x) as i64 as u64;
    }
    std::num::saturating_f64_to_u64(x)
}

// Rust's `x.round() as u64`: a half goes away from zero, and what is out of range to the nearest end.
// Below 2^52 twice x is exact, and its whole part has the digit after x's point. The kit's `round` took longer.
pub fn round_to_u64(x: f64) -> u64
    ensures { result ≡ round_to_u64 x }
{
    if x > 0.0 && x < ALL_WHOLE {
        return (to_u64(x * 2.0) + 1) / 2;
    }
    std::num::saturating_f64_to_u64(x)
}

// Rust's `x.is_finite()`.
#[tactic(auto, using(crate::proofs::Finite::finite_laws))]
pub fn is_finite(x: f64) -> bool
    ensures { result ≡ is_finite x }
{
    x.is_finite()
}

// Rust's `x.max(y)`; x where the two compare equal, which std's leaves open.
#[tactic(auto, unfolding(crate::specs::Float::max_of))]
pub fn max(x: f64, y: f64) -> f64
    ensures { result ≡ max_of x y }
{
    if x.is_nan() || x < y { y } else { x }
}

// Rust's `x.clamp(lo, hi)`. Rust panics unless lo <= hi; here the two tests are made in its order whatever they are.
#[tactic(auto, unfolding(crate::specs::Float::clamp_of))]
pub fn clamp(x: f64, lo: f64, hi: f64) -> f64
    ensures { result ≡ clamp_of x lo hi }
{
    let above = if x < lo { lo } else { x };
    if hi < above { hi } else { above }
}

// Rust's `x.floor()`. The kit's took longer.
#[tactic(auto, using(crate::proofs::Floors::floor_laws))]
pub fn floor(x: f64) -> f64
    ensures { result ≡ floor_of x }
{
    if x > 0.0 && x < ALL_WHOLE {
        return whole_below(x);
    }
    if x < 0.0 && -x < ALL_WHOLE {
        let w = whole_below(-x);
        if w < -x {
            return -(w + 1.0);
        }
    }
    x
}

// Rust's `x.ceil()`. The kit's took longer.
#[tactic(auto, using(crate::proofs::Floors::ceil_floor))]
pub fn ceil(x: f64) -> f64
    ensures { result ≡ ceil_of x }
{
    -floor(-x)
}

// The bits of `x.abs()`: those of x without the sign. Numbers that are not negative are ordered as their bits; a NaN
// comes last.
#[tactic(auto, using(crate::proofs::BitOrder::bits_laws))]
pub fn abs_bits(x: f64) -> u64
    ensures { result ≡ abs_bits x }
{
    if x.is_nan() {
        return u64::MAX;
    }
    x.abs().to_bits()
}
