// What Rust's std supplied to the fee code: saturating words, 128-bit numbers as two words, rounding and casts of
// `f64`, and the stand-ins for its exponential and logarithm. Every public function takes all values of its arguments,
// and its result is fixed by a definition of specs/. Contracts speak of floats as `lib.Ieee` does: `fin s m e` is
// m * 2 ^ e, negative where s is true.
#![tactic(auto)]

pub mod exp;
pub mod float;
pub mod ln;
pub mod wide;
pub mod word;
