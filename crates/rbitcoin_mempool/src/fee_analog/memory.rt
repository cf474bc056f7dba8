// The memory that is lent to pair windows.
ghost use Rattle.std.specs.Prelude.{◌≡◌};

// The hurdles; and of each target's pairs the logarithms of the medians before and the least hurdles ahead, in a region
// of `capacity` places for each target. Lists of their own: C lends each by itself. A state comes apart from them, so
// that what holds of both stands in contracts: `ValidFor`.
#[derive(Drop)]
pub struct WindowMemory<'a> {
    pub hurdles: &'a mut [u64],
    pub befores: &'a mut [f64],
    pub aheads: &'a mut [u64],
}

// The same, only to read: another type, since this is copied and one to write cannot be.
#[derive(Clone, Copy)]
pub struct WindowLists<'a> {
    pub hurdles: &'a [u64],
    pub befores: &'a [f64],
    pub aheads: &'a [u64],
}

impl WindowMemory<'_> {
    pub fn lists(&self) -> WindowLists<'_>
        ensures hurdles { result.hurdles.now ≡ self.now.hurdles.now }
        ensures befores { result.befores.now ≡ self.now.befores.now }
        ensures aheads { result.aheads.now ≡ self.now.aheads.now }
    {
        WindowLists {
            hurdles: &*self.hurdles,
            befores: &*self.befores,
            aheads: &*self.aheads,
        }
    }
}
