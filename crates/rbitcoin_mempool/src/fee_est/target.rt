// The rate at a confirm target, from depths that are already worked out.
ghost use Rattle.std.specs.Prelude.{◌≡◌, ℕ, ◌-◌, ◌+◌, ◌*◌, ◌^◌, ◌<◌, ◌≤◌, min, max, true};
ghost use Rattle.std.specs.Prelude.{length, take, nat_le, slice_index, slice_index_or};
ghost use Rattle.std.proofs.Math.Option.{none};
ghost use Rattle.slices.specs.Search.{seek};
ghost use Rattle.rbitcoin_mempool.specs.Answer.{answer};
ghost use Rattle.rbitcoin_mempool.specs.Rates.{given};
ghost use Rattle.rbitcoin_mempool.specs.Hold.{never_descends};
ghost use Rattle.rbitcoin_mempool.specs.Lists.{Paired, rates_in};
ghost use Rattle.rbitcoin_mempool.specs.Target.{nearest_on, lerp_sat_kvb, last_there, between, at_index};
ghost use Rattle.rbitcoin_mempool.specs.Target.{fee_at_target, fee_at_target_sat_kvb};

use super::hold::never_descends;
use super::marked::Marked;
use crate::answer::{Rate, Refusal};
use num::wide::{Wide, wide_divide};

// Two quotes `span` blocks apart, and how far a target lies from the left one.
#[derive(Clone, Copy)]
struct Line {
    left: u64,
    right: u64,
    dist: u64,
    span: u64,
    ghost within: { dist ≤ span },
    ghost apart: { 0 < span },
    ghost fits: { span < 2 ^ 32 },
}

impl Line {
    // left·(span - dist) + right·dist over span, to the nearest, halves up; the largest u64 where that is less. Rates
    // below 2^32 by one word: all lines by two took twice as long.
    fn nearest(self) -> u64
        ensures { result ≡ nearest_on self.left self.right self.dist self.span }
    {
        if self.left < 4294967296 && self.right < 4294967296 {
            self.short()
        } else {
            self.wide()
        }
    }

    #[tactic(auto, unfolding(crate::specs::Target::nearest_quotient))]
    fn short(self) -> u64
        requires { (self.left < 2 ^ 32) × (self.right < 2 ^ 32) }
        ensures { result ≡ nearest_on self.left self.right self.dist self.span }
    {
        let numer = self.left * (self.span - self.dist) + self.right * self.dist;
        let quotient = numer / self.span;
        if self.span <= numer % self.span * 2 {
            return quotient + 1;
        }
        quotient
    }

    // The products and their sum in a `u128`, the division by words.
    #[tactic(auto, unfolding(crate::specs::Target::nearest_quotient))]
    fn wide(self) -> u64
        ensures { result ≡ nearest_on self.left self.right self.dist self.span }
    {
        let left = u128::from(self.left) * u128::from(self.span - self.dist);
        let numer = left + u128::from(self.right) * u128::from(self.dist);
        let parts = wide_divide(Wide::from(numer), self.span);
        let up = self.span <= parts.remainder * 2;
        u64::try_from(u128::from(parts.quotient) + u128::from(up)).unwrap_or(u64::MAX)
    }

    // The same, held between the two ends.
    fn held(self) -> u64
        ensures { let quote = nearest_on self.left self.right self.dist self.span in
            result ≡ max (min self.left self.right) (min (max self.left self.right) quote) }
    {
        let low = self.left.min(self.right);
        let high = self.left.max(self.right);
        low.max(high.min(self.nearest()))
    }
}

// `left` at d0, `right` at d1, the straight line at `target` in between, to the nearest sat/kvB,
// halves away from zero, clamped to the two ends.
#[tactic(auto, unfolding(crate::specs::Target::lerp_sat_kvb))]
pub fn lerp_sat_kvb(d0: u32, left: u64, d1: u32, right: u64, target: u32) -> u64
    ensures { result ≡ lerp_sat_kvb d0 left d1 right target }
{
    let span = d1.saturating_sub(d0) as u64;
    if span == 0 {
        return left;
    }
    let line = Line {
        left,
        right,
        dist: (target.saturating_sub(d0) as u64).min(span),
        span,
    };
    line.held()
}

// Depths that never descend, and as many rates. An index among them stands with its bound in two contracts: as a type
// of its own it would be made for a single call.
#[derive(Clone, Copy)]
struct Curve<'a> {
    depths: &'a [u32],
    rates: Marked<'a>,
    ghost paired: { Paired rates (length depths.now) },
    ghost ascends: { never_descends depths.now ≡ true },
}

impl Curve<'_> {
    // The first depth at or above the target.
    fn first_at(&self, target: u32) -> usize
        ensures { let depths = self.now.depths.now in
            result ≡ seek (λ i. nat_le target (slice_index depths i)) 0 (length depths) }
    {
        slices::search::lower_bound(self.depths, 0, self.depths.len(), target)
    }

    // Between the depth before i and the one at i.
    fn between_at(&self, target: u32, i: usize) -> Rate
        requires { (0 < i) × (i < length self.now.depths.now) }
        ensures { let depths = self.now.depths.now in
            let rates = rates_in self.now.rates in
            let before = slice_index depths (i - 1) in
            let line : ℕ → ℕ → ℕ = λ l r. lerp_sat_kvb before l (slice_index depths i) r target in
            given result ≡ between line (last_there (take i rates))
            (slice_index_or rates (i - 1) none) (slice_index_or rates i none) }
    {
        let before = i - 1;
        match self.rates.rate_at(before) {
            Some(left) => match self.rates.rate_at(i) {
                Some(right) => {
                    let quote = lerp_sat_kvb(
                        self.depths[before],
                        left,
                        self.depths[i],
                        right,
                        target,
                    );
                    Some(quote)
                }
                None => Some(left),
            },
            None => self.rates.last_there(i),
        }
    }

    // At the first depth at or above the target: its own rate, or what lies between it and the one before.
    #[tactic(auto, unfolding(crate::specs::Target::at_index))]
    fn at_index(&self, target: u32, i: usize) -> Rate
        requires { i < length self.now.depths.now }
        ensures { let line : ℕ → ℕ → ℕ → ℕ → ℕ = λ d0 l d1 r. lerp_sat_kvb d0 l d1 r target in
            given result ≡ at_index line self.now.depths.now (rates_in self.now.rates) target i }
    {
        if self.depths[i] == target {
            return self.rates.rate_at(i);
        }
        if i == 0 {
            return None;
        }
        self.between_at(target, i)
    }

    // The lookup proper.
    fn look_up(&self, target: u32) -> Rate
        requires { 0 < length self.now.depths.now }
        ensures { given result ≡ fee_at_target self.now.depths.now (rates_in self.now.rates) target }
    {
        let n = self.depths.len();
        if target > self.depths[n - 1] {
            return self.rates.last_there(n);
        }
        self.at_index(target, self.first_at(target))
    }
}

// The rate at a target. Refusal 1 where numbers and marks differ in length; no rate where there are
// no depths, or not as many rates as depths; then refusal 8 for a mark other than 0 or 1, and 2
// for a depth less than the one before it.
#[tactic(auto, unfolding(crate::specs::Target::fee_at_target_sat_kvb))]
pub fn fee_at_target_sat_kvb(depths: &[u32], rates: Marked, target: u32) -> Result<Rate, Refusal>
    ensures { answer result ≡ fee_at_target_sat_kvb depths.now rates.entry.numbers.now rates.entry.marks.now target }
{
    if rates.numbers.len() != rates.marks.len() {
        return Err(Refusal::Unpaired);
    }
    if depths.is_empty() || depths.len() != rates.numbers.len() {
        return Ok(None);
    }
    if !rates.are_valid() {
        return Err(Refusal::Mark);
    }
    if !never_descends(depths) {
        return Err(Refusal::Descending);
    }
    Ok(Curve { depths, rates }.look_up(target))
}
