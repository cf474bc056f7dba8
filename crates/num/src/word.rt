// Rust's saturating arithmetic, `min` and `max` of `u64`, for all arguments, by the names under which C and the replay
// program call them.
ghost use Rattle.std.specs.Prelude.{◌≡◌};
ghost use Rattle.num.specs.Word.{saturating_add, saturating_sub, saturating_mul, least, greatest};

pub fn saturating_add(a: u64, b: u64) -> u64
    ensures { result ≡ saturating_add a b }
{
    a.saturating_add(b)
}

pub fn saturating_sub(a: u64, b: u64) -> u64
    ensures { result ≡ saturating_sub a b }
{
    a.saturating_sub(b)
}

pub fn saturating_mul(a: u64, b: u64) -> u64
    ensures { result ≡ saturating_mul a b }
{
    a.saturating_mul(b)
}

pub fn least(a: u64, b: u64) -> u64
    ensures { result ≡ least a b }
{
    a.min(b)
}

pub fn greatest(a: u64, b: u64) -> u64
    ensures { result ≡ greatest a b }
{
    a.max(b)
}
