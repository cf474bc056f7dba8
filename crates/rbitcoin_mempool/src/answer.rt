// What a call is answered with.
ghost use Rattle.std.specs.Prelude.{◌≡◌, min};
ghost use Rattle.rbitcoin_mempool.specs.Rates.{given};
ghost use Rattle.rbitcoin_mempool.specs.Exact.{least};
ghost use Rattle.rbitcoin_mempool.specs.Refusal.{number};

// A rate that is either there with its number or missing.
pub type Rate = Option<u64>;

// The lesser of two rates, or the one that is there.
pub(crate) fn lesser_of(a: Rate, b: Rate) -> Rate
    ensures { given result ≡ least min (given a) (given b) }
{
    match (a, b) {
        (Some(x), Some(y)) => Some(x.min(y)),
        (a, b) => a.or(b),
    }
}

// Why a call is sent away. Each has document 01's number.
#[derive(Clone, Copy, Debug, PartialEq, Eq, Hash)]
pub enum Refusal {
    // Paired lists of unequal length.
    Unpaired = 1,
    // A depth less than the one before it.
    Descending = 2,
    TooManyTargets = 3,
    // A block more, or hurdles, than the capacity.
    Full = 4,
    // Lent memory, or an output list, that is too short; a capacity above the largest; a state that no call returns.
    Short = 5,
    // A median or a quantile of an empty list.
    Empty = 6,
    // A confidence that is NaN or outside 0 to 1.
    Confidence = 7,
    // A mark other than 0 or 1.
    Mark = 8,
}

impl From<Refusal> for u8 {
    ghost from_gives = { λ k n. n ≡ number k };

    fn from(k: Refusal) -> u8 {
        k as u8
    }
}
