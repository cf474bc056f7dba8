// Writing answers to a writer.
ghost use Rattle.std.specs.Prelude.{◌≡◌, OnOk, IfErr};

use crate::bits_of;
use std::io;
use std::io::Write;

pub fn word<W: Write>(to: &mut W, n: u64) -> io::Result<()> {
    write!(to, "{n:016x}")
}

pub fn space<W: Write>(to: &mut W) -> io::Result<()> {
    to.write_all(b" ")
}

// After a space.
pub fn next<W: Write>(to: &mut W, n: u64) -> io::Result<()> {
    space(to)?;
    word(to, n)
}

pub fn newline<W: Write>(to: &mut W) -> io::Result<()> {
    to.write_all(b"\n")
}

// A line of one word.
pub fn only<W: Write>(to: &mut W, n: u64) -> io::Result<()> {
    word(to, n)?;
    newline(to)
}

// A line of one float.
pub fn float<W: Write>(to: &mut W, x: f64) -> io::Result<()> {
    if x.is_nan() {
        return to.write_all(b"nan\n");
    }
    only(to, bits_of(x))
}

// A rate that may be missing: its mark and its number.
pub fn marked<W: Write>(to: &mut W, rate: Option<u64>) -> io::Result<()> {
    word(to, u64::from(rate.is_some()))?;
    next(to, rate.unwrap_or(0))
}

// The number of an outcome: 0, or the refusal's, as the lines of the comparison have it.
pub fn refusal_number<E: Into<u8>>(outcome: Result<(), E>) -> u64
    ensures ok { OnOk outcome (result ≡ 0) }
    ensures refused { IfErr outcome (λ refusal. E.converts refusal result) }
{
    match outcome {
        Ok(()) => 0,
        Err(refusal) => u64::from(refusal.into()),
    }
}

// A rate that may be refused: the refusal's number or 0, the mark and the rate.
pub fn rate<W: Write, E: Into<u8>>(to: &mut W, answer: Result<Option<u64>, E>) -> io::Result<()> {
    let (refusal, rate) = match answer {
        Ok(rate) => (0, rate),
        Err(refusal) => (refusal.into(), None),
    };
    word(to, u64::from(refusal))?;
    space(to)?;
    marked(to, rate)
}

// A line of one rate.
pub fn only_rate<W: Write, E: Into<u8>>(
    to: &mut W,
    answer: Result<Option<u64>, E>,
) -> io::Result<()> {
    rate(to, answer)?;
    newline(to)
}

pub fn list<W: Write, T: Into<u64> + Copy>(to: &mut W, list: &[T]) -> io::Result<()> {
    word(to, list.len() as u64)?;
    for n in list {
        next(to, (*n).into())?;
    }
    Ok(())
}

pub fn unknown<W: Write>(to: &mut W) -> io::Result<()> {
    to.write_all(b"unknown\n")
}
