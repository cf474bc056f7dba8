// A field of a line, a byte at a time.
ghost use Rattle.std.specs.Prelude.{◌≡◌};
ghost use Rattle.quote_lines.specs.Machine.{with_digit, digits_on, first_byte, grown as Machine·grown};

// What the bytes of a field say so far.
#[derive(Clone, Copy, Debug, PartialEq, Eq)]
pub enum Field {
    Empty,
    LetterD,
    LetterT,
    Dash,
    Number(u64),
    Other,
}

// The number that a decimal digit behind n makes: none where the byte is no digit or the number does not fit.
fn with_digit(n: u64, b: u8) -> Option<u64>
    ensures { result ≡ with_digit n b }
{
    if !b.is_ascii_digit() {
        return None;
    }
    n.checked_mul(10)?.checked_add(u64::from(b - b'0'))
}

// Digits that say n, and one byte more.
fn digits_on(n: u64, b: u8) -> Field
    ensures { result ≡ digits_on n b }
{
    match with_digit(n, b) {
        Some(more) => Field::Number(more),
        None => Field::Other,
    }
}

fn first_byte(b: u8) -> Field
    ensures { result ≡ first_byte b }
{
    match b {
        b'D' => Field::LetterD,
        b'T' => Field::LetterT,
        b'-' => Field::Dash,
        _ => digits_on(0, b),
    }
}

impl Field {
    // One byte more. A space and a newline count as any other byte: a caller ends the field there.
    pub(crate) fn grown(self, b: u8) -> Field
        ensures { result ≡ Machine·grown self b }
    {
        match self {
            Field::Empty => first_byte(b),
            Field::Number(n) => digits_on(n, b),
            _ => Field::Other,
        }
    }
}
