// The stand-in for Rust's `ln`, of whole numbers and of 1.25.
ghost use Rattle.std.specs.Prelude.{◌≡◌, false, T, pos, negsuc, if◌then◌else◌};
ghost use Rattle.std.specs.Float.{fin, binary64};
ghost use Rattle.std.specs.Float.Ieee.{mul, of_int};
ghost use Rattle.num.specs.Ln.{half, from_one, significand_of, exponent_of, ratio, reciprocal, terms, ln_by, ln_of};

use super::exp::{HI, LO};
use super::float::from_u64;

const SQRT_2: f64 = 1.4142135623730951;

const LN_1_25: f64 = 0.22314355131420974;

// 1/(2j + 1), for j from 9 down to 0: constants, since the compiler divides in a loop at each turn.
const RECIPROCALS: [f64; 10] = [
    1.0 / 19.0,
    1.0 / 17.0,
    1.0 / 15.0,
    1.0 / 13.0,
    1.0 / 11.0,
    1.0 / 9.0,
    1.0 / 7.0,
    1.0 / 5.0,
    1.0 / 3.0,
    1.0,
];

// The significand of x, from 1 to below 2: x's digits with the exponent field of 1.0. Where `halve` is true it is
// halved: the field is that of 0.5. The flag chooses a constant and no step.
fn significand(x: f64, halve: bool) -> f64
    requires { T (from_one x) }
    ensures { result ≡ (if halve then mul binary64 (significand_of x) half else significand_of x) }
{
    let digits = x.to_bits() % 0x10_0000_0000_0000;
    if halve {
        f64::from_bits(digits + 0x3FE0_0000_0000_0000)
    } else {
        f64::from_bits(digits + 0x3FF0_0000_0000_0000)
    }
}

// The exponent of x: the exponent field less 1023.
fn exponent(x: f64) -> u32
    requires { T (from_one x) }
    ensures { result ≡ exponent_of x }
{
    (x.to_bits() / 0x10_0000_0000_0000 - 1023) as u32
}

// The polynomial of degree 10 at z.
fn series(z: f64) -> f64
    ensures { result ≡ terms z 10 (reciprocal 10) }
{
    RECIPROCALS.iter().fold(1.0 / 21.0, |t, r| *r + z * t)
}

// The logarithm of m * 2^k, for an m about 1.
fn sum(m: f64, k: u32) -> f64
    ensures { result ≡ ln_by (ratio m) k }
{
    let s = (m - 1.0) / (m + 1.0);
    let k = k as f64;
    k * HI + (2.0 * s * series(s * s) + k * LO)
}

// A stand-in for ln n, minus infinity at 0. No branch hangs on the significand, since none could be foretold.
#[tactic(auto, using(crate::proofs::Logarithm::is_from_one))]
pub fn ln(n: u64) -> f64
    ensures { result ≡ ln_of (of_int binary64 (pos n)) }
{
    if n == 0 {
        return f64::NEG_INFINITY;
    }
    let x = from_u64(n);
    let halve = significand(x, false) >= SQRT_2;
    sum(significand(x, halve), exponent(x) + halve as u32)
}

// A stand-in for ln 1.25, which is 5 / 2^2.
pub fn ln_1_25() -> f64
    ensures { result ≡ ln_of (fin false 5 (negsuc 1)) }
{
    LN_1_25
}
