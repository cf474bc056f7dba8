// The pairs of one target.
ghost use Rattle.std.specs.Prelude.{◌≡◌, length};

// Logarithms and as many outcomes, oldest first.
#[derive(Clone, Copy)]
pub(crate) struct Pairs<'a> {
    pub logs: &'a [f64],
    pub outcomes: &'a [u64],
    ghost paired: { length logs.now ≡ length outcomes.now },
}
