// The stand-in for Rust's `exp`, for every argument.
ghost use Rattle.std.specs.Prelude.{◌≡◌, ◌≤◌, if◌then◌else◌};
ghost use Rattle.num.specs.Exp.{one, horner, power, exp_at, exp_of};

use super::float::{from_u64, round_to_u64};

const LOG2_E: f64 = 1.4426950408889634;

// ln 2 is HI + LO.
pub(crate) const HI: f64 = 0.6931471803691238;

pub(crate) const LO: f64 = 1.9082149292705877e-10;

// The polynomial of degree 13 at r.
#[tactic(auto, using(crate::proofs::Polynomial::step, crate::proofs::Polynomial::done))]
fn series(r: f64) -> f64
    ensures { result ≡ horner r 13 one }
{
    let mut t = 1.0;
    for j in (1..=13u32).rev() {
        t = 1.0 + r * t / f64::from(j);
    }
    t
}

// 2^size, or 2^-size where `negative` is true: sign and size apart, as the definition has them.
fn power(negative: bool, size: u64) -> f64
    requires { size ≤ (if negative then 1022 else 1023) }
    ensures { result ≡ power negative size }
{
    if negative {
        f64::from_bits((1023 - size) << 52)
    } else {
        f64::from_bits((1023 + size) << 52)
    }
}

// e^(x - k ln 2) times 2^k, for the k of that size that is negative where `negative` is true.
fn scaled(x: f64, negative: bool, size: u64) -> f64
    requires { size ≤ (if negative then 1022 else 1023) }
    ensures { result ≡ exp_at x negative size }
{
    let n = from_u64(size);
    let k = if negative { -n } else { n };
    series(x - k * HI - k * LO) * power(negative, size)
}

// A stand-in for e^x.
pub fn exp(x: f64) -> f64
    ensures { result ≡ exp_of x }
{
    if x.is_nan() {
        return f64::NAN;
    }
    if x < -708.0 {
        return 0.0;
    }
    if x > 709.0 {
        return f64::INFINITY;
    }
    let p = x * LOG2_E;
    if p < 0.0 {
        scaled(x, true, round_to_u64(-p))
    } else {
        scaled(x, false, round_to_u64(p))
    }
}
