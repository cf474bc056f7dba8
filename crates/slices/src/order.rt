// The least and the k-th smallest element of a lent list, which is left as found.
ghost use Rattle.std.specs.Prelude.{◌≡◌, ◌<◌, ◌≤◌, ◌&&◌, length, take, nat_le, slice_index};
ghost use Rattle.slices.specs.Sorted.{sorted, at_most, in_range};
ghost use Rattle.slices.specs.Least.{least_of};

use super::sort::select_nth;

// Up to so many elements are selected in a list of their own.
const FEW: usize = 2048;

// How many elements are at most v. Tried with `filter(..).count()`, which has a branch for each: 31,000 elements then
// take 138 us in place of 12.
pub fn count_at_most(xs: &[u64], v: u64) -> usize
    ensures { result ≡ at_most v xs.now }
{
    let mut n: usize = 0;
    for x in xs {
        if *x <= v {
            n += 1;
        }
    }
    n
}

// The least element, and the largest `u64` where there is none.
pub fn least_of(xs: &[u64]) -> u64
    ensures { result ≡ least_of xs.now }
{
    xs.iter().copied().min().unwrap_or(u64::MAX)
}

// The values from lo to hi. The list they are sought in is a parameter beside it: a turn changes the one and not the
// other.
#[derive(Clone, Copy)]
struct Span {
    lo: u64,
    hi: u64,
    ghost ordered: { lo ≤ hi },
}

impl Span {
    // By one comparison, of the distance from lo modulo 2^64. Tried with two: a pass over 31,000 elements then takes
    // 42 us in place of 21.
    #[tactic(auto, using(crate::proofs::Between::one_test))]
    fn contains(self, x: u64) -> bool
        ensures { result ≡ (nat_le self.lo x && nat_le x self.hi) }
    {
        x.wrapping_sub(self.lo) <= self.hi - self.lo
    }
}

// The elements in the span, to the front of `out`; says how many they are. Each element is stored, and the next is
// stored over one that does not lie there, so that no branch depends on the elements.
fn collect_inside(xs: &[u64], span: Span, out: &mut [u64]) -> usize
    requires { length (in_range span.lo span.hi xs.now) < length out.old }
    ensures value { result ≡ length (in_range span.lo span.hi xs.now) }
    ensures out_after { take result out.new ≡ in_range span.lo span.hi xs.now }
{
    let mut n: usize = 0;
    for x in xs {
        out[n] = *x;
        if span.contains(*x) {
            n += 1;
        }
    }
    n
}

// The element at k of the sorted list of the elements in the span, selected in a list of its own.
fn select_inside(xs: &[u64], span: Span, k: usize) -> u64
    requires { length (in_range span.lo span.hi xs.now) ≤ 2048 }
    ensures { result ≡ slice_index (sorted (in_range span.lo span.hi xs.now)) k }
{
    let mut own = [0u64; FEW + 1];
    let n = collect_inside(xs, span, &mut own);
    select_nth(&mut own[..n], k)
}

// The first elements in the span at every `stride`-th place, put as `collect_inside` puts them, as many as `out` has
// room for; says how many. By chunks:
// `step_by` passes over each element between.
fn gather(xs: &[u64], span: Span, stride: usize, out: &mut [u64]) -> usize
    requires { 0 < stride }
    ensures { result ≤ length out.new }
{
    let mut n: usize = 0;
    for chunk in xs.chunks(stride) {
        if n == out.len() {
            break;
        }
        out[n] = chunk[0];
        if span.contains(chunk[0]) {
            n += 1;
        }
    }
    n
}

// A value above or just below the elements around place q of the sorted sample. A flag and no two functions: at an end
// of the sample each side needs the other. No claim is made on how near the value is.
fn beside(sample: &mut [u64], q: usize, above: bool) -> u64 {
    let n = sample.len();
    let margin = n / 48 + 3;
    if q < margin || above && margin < n.saturating_sub(q) {
        return select_nth(sample, q + margin);
    }
    select_nth(sample, q - margin).saturating_sub(1)
}

// Where a turn of the bisection parts the values: above the element sought or below it, as a sample has it, or in the
// middle, so that the range halves.
#[derive(Clone, Copy)]
enum Part {
    Above,
    Below,
    Middle,
}

impl Part {
    fn next(self) -> Part {
        match self {
            Part::Above => Part::Below,
            Part::Below => Part::Middle,
            Part::Middle => Part::Above,
        }
    }
}

// A value of the span below its last, at which to part it for the element of rank r of the s in it.
fn pivot(xs: &[u64], span: Span, r: usize, s: usize, part: Part) -> u64
    requires { span.lo < span.hi }
    ensures { (span.lo ≤ result) × (result < span.hi) }
{
    let above = match part {
        Part::Above => true,
        Part::Below => false,
        Part::Middle => return span.lo + (span.hi - span.lo) / 2,
    };
    let stride = s / 512 + 1;
    let mut sample = [0u64; 512];
    let n = gather(xs, span, stride, &mut sample);
    beside(&mut sample[..n], r / stride, above).clamp(span.lo, span.hi - 1)
}

// The element at k of the sorted list: bisection on the value. `under` elements are below the span and `upto` at most
// its last value; where few are left in it, it is selected among these. The loop counts nothing: a turn narrows the
// span.
fn select(xs: &[u64], k: usize) -> u64
    requires { k < length xs.now }
    ensures { result ≡ slice_index (sorted xs.now) k }
{
    let mut span = Span {
        lo: 0,
        hi: u64::MAX,
    };
    let mut under: usize = 0;
    let mut upto = xs.len();
    let mut part = Part::Above;
    while span.lo < span.hi {
        if upto - under <= FEW {
            return select_inside(xs, span, k - under);
        }
        let mid = pivot(xs, span, k - under, upto - under, part);
        part = part.next();
        let n = count_at_most(xs, mid);
        if k < n {
            span.hi = mid;
            upto = n;
        } else {
            span.lo = mid + 1;
            under = n;
        }
    }
    span.lo
}

// The element at k of the sorted list, selected in a copy.
fn select_copy<const N: usize>(xs: &[u64], k: usize) -> u64
    requires { (length xs.now ≤ N) × (N ≤ 2048) }
    ensures { result ≡ slice_index (sorted xs.now) k }
{
    let mut own = [0u64; N];
    let copy = &mut own[..xs.len()];
    copy.copy_from_slice(xs);
    select_nth(copy, k)
}

// The element at k of the sorted list, and 0 past its end. Of few elements a copy is made, no larger than need be.
pub fn nth_smallest(xs: &[u64], k: usize) -> u64
    ensures { result ≡ slice_index (sorted xs.now) k }
{
    match xs.len() {
        n if n <= k => 0,
        0..=16 => select_copy::<16>(xs, k),
        17..=144 => select_copy::<144>(xs, k),
        145..=FEW => select_copy::<FEW>(xs, k),
        _ => select(xs, k),
    }
}
