// Moving a run of elements within a lent list, and from one list to the front of another, where the runs fit.
ghost use Rattle.std.specs.Prelude.{◌≡◌, ◌+◌, ◌≤◌, length};
ghost use Rattle.slices.specs.Lists.{moved, both_fit, copy_within, copy_front};

// Whether n places from `to` on, and from `from` on, lie within a list of `len`.
#[tactic(auto, using(std::proofs::lemmas::Bool::Decides::nat_tests), unfolding(crate::specs::Lists::both_fit))]
fn both_fit(len: usize, to: usize, from: usize, n: usize) -> bool
    ensures { result ≡ both_fit len to from n }
{
    n <= len && to.max(from) <= len - n
}

// The n elements from place `from` on, also at the places from `to` on.
#[tactic(auto, unfolding(crate::specs::Lists::moved))]
fn move_run<T: Copy>(xs: &mut [T], to: usize, from: usize, n: usize)
    requires { (to + n ≤ length xs.old) × (from + n ≤ length xs.old) }
    ensures { xs.new ≡ moved xs.old to from n }
{
    xs.copy_within(from..from + n, to);
}

// The same where both runs fit; nothing where either does not. A run at its own place is left alone.
#[tactic(auto, using(crate::proofs::Runs::copy_laws))]
pub fn copy_within<T: Copy>(xs: &mut [T], to: usize, from: usize, n: usize)
    ensures { xs.new ≡ copy_within xs.old to from n }
{
    if to == from {
        return;
    }
    if both_fit(xs.len(), to, from, n) {
        move_run(xs, to, from, n);
    }
}

// The elements of `from`, to the front of `xs`; nothing where they do not fit.
#[tactic(auto, using(std::proofs::lemmas::Bool::Decides::nat_tests), unfolding(crate::specs::Lists::copy_front))]
pub fn copy_front<T: Copy>(xs: &mut [T], from: &[T])
    ensures { xs.new ≡ copy_front xs.old from.now }
{
    if from.len() <= xs.len() {
        xs[..from.len()].copy_from_slice(from);
    }
}
