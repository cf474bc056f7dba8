// Rust's `u128`, passed as two words of 64 bits as C asks: product, sum and division by a word, for all
// arguments. (hi, lo) is hi * 2^64 + lo. The division goes by words: one of a `u128` is a call of `__udivti3`, which the
// library for C would need from outside.
ghost use Rattle.std.specs.Prelude.{◌≡◌, ◌+◌, ◌*◌, ◌^◌, ◌<◌, ◌≤◌};
ghost use Rattle.num.specs.Wide.{value, wrapping_sum, divided, IsDivision};

#[repr(C)]
#[derive(Clone, Copy)]
pub struct Wide {
    pub hi: u64,
    pub lo: u64,
}

#[repr(C)]
#[derive(Clone, Copy)]
pub struct WideDivision {
    pub quotient: Wide,
    pub remainder: u64,
}

#[derive(Clone, Copy)]
struct Division {
    quotient: u64,
    remainder: u64,
}

// The two words of n.
impl From<u128> for Wide {
    ghost from_gives = { λ n w. value w ≡ n };

    #[tactic(auto, unfolding(crate::specs::Wide::value))]
    fn from(n: u128) -> Wide {
        Wide {
            hi: (n >> 64) as u64,
            lo: (n % 0x1_0000_0000_0000_0000) as u64,
        }
    }
}

// The number that the two words hold.
impl From<Wide> for u128 {
    ghost from_gives = { λ w n. n ≡ value w };

    #[tactic(auto, unfolding(crate::specs::Wide::value))]
    fn from(w: Wide) -> u128 {
        u128::from(w.hi) * 0x1_0000_0000_0000_0000 + u128::from(w.lo)
    }
}

// a * b.
#[tactic(auto, unfolding(crate::specs::Wide::value))]
pub fn wide_product(a: u64, b: u64) -> Wide
    ensures { value result ≡ a * b }
{
    Wide::from(u128::from(a) * u128::from(b))
}

// a + b modulo 2^128, as Rust's `wrapping_add`.
#[tactic(auto, unfolding(crate::specs::Wide::value, crate::specs::Wide::wrapping_sum))]
pub fn wide_sum(a: Wide, b: Wide) -> Wide
    ensures { value result ≡ wrapping_sum (value a) (value b) }
{
    Wide::from(u128::from(a).wrapping_add(u128::from(b)))
}

// (hi, lo) by d, which is above hi and at most 2^32: two digits of 32 bits.
fn divide_short(hi: u64, lo: u64, d: u64) -> Division
    requires { (hi < d) × (d ≤ 2 ^ 32) }
    ensures { IsDivision (hi * 2 ^ 64 + lo) d result.quotient result.remainder }
{
    let first = hi * 4294967296 + lo / 4294967296;
    let second = first % d * 4294967296 + lo % 4294967296;
    Division {
        quotient: first / d * 4294967296 + second / d,
        remainder: second % d,
    }
}

// r * 2^32 + x by d, which is above r and has its top bit set. The trial digit is r by the upper
// half of d, and falls while the product with the lower half passes what is left. That product
// fits, since the trial digit is at most 2^32 + 1.
fn digit(r: u64, x: u64, d: u64) -> Division
    requires { (2 ^ 63 ≤ d) × (r < d) × (x < 2 ^ 32) }
    ensures { IsDivision (r * 2 ^ 32 + x) d result.quotient result.remainder }
{
    let upper = d / 4294967296;
    let lower = d % 4294967296;
    let mut q = r / upper;
    let mut left = r % upper;
    while left < 4294967296 {
        if q * lower <= left * 4294967296 + x {
            break;
        }
        q -= 1;
        left += upper;
    }
    Division {
        quotient: q,
        remainder: std::num::wrapping_sub_u64(left % 4294967296 * 4294967296 + x, q * lower),
    }
}

// (hi, lo) by d, which is above hi and has its top bit set.
fn divide_normal(hi: u64, lo: u64, d: u64) -> Division
    requires { (2 ^ 63 ≤ d) × (hi < d) }
    ensures { IsDivision (hi * 2 ^ 64 + lo) d result.quotient result.remainder }
{
    let first = digit(hi, lo / 4294967296, d);
    let second = digit(first.remainder, lo % 4294967296, d);
    Division {
        quotient: first.quotient * 4294967296 + second.quotient,
        remainder: second.remainder,
    }
}

// (hi, lo) by d, which is above hi. Both are shifted left until d has its top bit set, which
// leaves the quotient, and the remainder is shifted back.
fn divide_long(hi: u64, lo: u64, d: u64) -> Division
    requires { hi < d }
    ensures { IsDivision (hi * 2 ^ 64 + lo) d result.quotient result.remainder }
{
    let s = d.leading_zeros();
    let shifted = divide_normal((hi << s) + (lo >> 1 >> (63 - s)), lo << s, d << s);
    Division {
        quotient: shifted.quotient,
        remainder: shifted.remainder >> s,
    }
}

// (hi, lo) by d, which is above hi, so that the quotient is one word.
fn divide_word(hi: u64, lo: u64, d: u64) -> Division
    requires { hi < d }
    ensures { IsDivision (hi * 2 ^ 64 + lo) d result.quotient result.remainder }
{
    if hi == 0 {
        return Division {
            quotient: lo / d,
            remainder: lo % d,
        };
    }
    if d <= 4294967296 {
        return divide_short(hi, lo, d);
    }
    divide_long(hi, lo, d)
}

// The quotient and the remainder of n by d, both 0 for d = 0.
pub fn wide_divide(n: Wide, d: u64) -> WideDivision
    ensures { (value result.quotient, result.remainder) ≡ divided (value n) d }
{
    if d == 0 {
        return WideDivision {
            quotient: Wide { hi: 0, lo: 0 },
            remainder: 0,
        };
    }
    if n.hi < d {
        let low = divide_word(n.hi, n.lo, d);
        return WideDivision {
            quotient: Wide {
                hi: 0,
                lo: low.quotient,
            },
            remainder: low.remainder,
        };
    }
    let low = divide_word(n.hi % d, n.lo, d);
    WideDivision {
        quotient: Wide {
            hi: n.hi / d,
            lo: low.quotient,
        },
        remainder: low.remainder,
    }
}
