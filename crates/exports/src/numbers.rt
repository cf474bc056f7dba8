// The functions of the crate `num`, with the arguments that C passes.
ghost use Rattle.std.specs.Prelude.{◌≡◌, ◌*◌, false, negsuc};
ghost use Rattle.num.specs.Float.{of_u64, to_u64, is_finite, max_of, clamp_of, floor_of, ceil_of};
ghost use Rattle.num.specs.Round.{round_to_u64};
ghost use Rattle.num.specs.Exp.{exp_of};
ghost use Rattle.num.specs.Ln.{ln_of};
ghost use Rattle.num.specs.Word.{saturating_add, saturating_sub, saturating_mul, least, greatest};
ghost use Rattle.num.specs.Wide.{value, wrapping_sum, divided};
ghost use Rattle.std.specs.Float.{fin};

use num::wide::{Wide, WideDivision};

#[unsafe(no_mangle)]
pub extern "C" fn juleyomu_f64_from_u64(n: u64) -> f64
    ensures { result ≡ of_u64 n }
{
    num::float::from_u64(n)
}

#[unsafe(no_mangle)]
pub extern "C" fn juleyomu_f64_to_u64(x: f64) -> u64
    ensures { result ≡ to_u64 x }
{
    num::float::to_u64(x)
}

#[unsafe(no_mangle)]
pub extern "C" fn juleyomu_round_to_u64(x: f64) -> u64
    ensures { result ≡ round_to_u64 x }
{
    num::float::round_to_u64(x)
}

#[unsafe(no_mangle)]
pub extern "C" fn juleyomu_is_finite(x: f64) -> bool
    ensures { result ≡ is_finite x }
{
    num::float::is_finite(x)
}

#[unsafe(no_mangle)]
pub extern "C" fn juleyomu_max(x: f64, y: f64) -> f64
    ensures { result ≡ max_of x y }
{
    num::float::max(x, y)
}

#[unsafe(no_mangle)]
pub extern "C" fn juleyomu_clamp(x: f64, lo: f64, hi: f64) -> f64
    ensures { result ≡ clamp_of x lo hi }
{
    num::float::clamp(x, lo, hi)
}

#[unsafe(no_mangle)]
pub extern "C" fn juleyomu_floor(x: f64) -> f64
    ensures { result ≡ floor_of x }
{
    num::float::floor(x)
}

#[unsafe(no_mangle)]
pub extern "C" fn juleyomu_ceil(x: f64) -> f64
    ensures { result ≡ ceil_of x }
{
    num::float::ceil(x)
}

#[unsafe(no_mangle)]
pub extern "C" fn juleyomu_exp(x: f64) -> f64
    ensures { result ≡ exp_of x }
{
    num::exp::exp(x)
}

#[unsafe(no_mangle)]
pub extern "C" fn juleyomu_saturating_add(a: u64, b: u64) -> u64
    ensures { result ≡ saturating_add a b }
{
    num::word::saturating_add(a, b)
}

#[unsafe(no_mangle)]
pub extern "C" fn juleyomu_saturating_sub(a: u64, b: u64) -> u64
    ensures { result ≡ saturating_sub a b }
{
    num::word::saturating_sub(a, b)
}

#[unsafe(no_mangle)]
pub extern "C" fn juleyomu_saturating_mul(a: u64, b: u64) -> u64
    ensures { result ≡ saturating_mul a b }
{
    num::word::saturating_mul(a, b)
}

#[unsafe(no_mangle)]
pub extern "C" fn juleyomu_least(a: u64, b: u64) -> u64
    ensures { result ≡ least a b }
{
    num::word::least(a, b)
}

#[unsafe(no_mangle)]
pub extern "C" fn juleyomu_greatest(a: u64, b: u64) -> u64
    ensures { result ≡ greatest a b }
{
    num::word::greatest(a, b)
}

#[unsafe(no_mangle)]
pub extern "C" fn juleyomu_wide_product(a: u64, b: u64) -> Wide
    ensures { value result ≡ a * b }
{
    num::wide::wide_product(a, b)
}

#[unsafe(no_mangle)]
pub extern "C" fn juleyomu_wide_sum(a: Wide, b: Wide) -> Wide
    ensures { value result ≡ wrapping_sum (value a) (value b) }
{
    num::wide::wide_sum(a, b)
}

#[unsafe(no_mangle)]
pub extern "C" fn juleyomu_wide_divide(n: Wide, d: u64) -> WideDivision
    ensures { (value result.quotient, result.remainder) ≡ divided (value n) d }
{
    num::wide::wide_divide(n, d)
}

#[unsafe(no_mangle)]
pub extern "C" fn juleyomu_ln(n: u64) -> f64
    ensures { result ≡ ln_of (of_u64 n) }
{
    num::ln::ln(n)
}

#[unsafe(no_mangle)]
pub extern "C" fn juleyomu_ln_1_25() -> f64
    ensures { result ≡ ln_of (fin false 5 (negsuc 1)) }
{
    num::ln::ln_1_25()
}
