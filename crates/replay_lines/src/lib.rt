// What the replay programs share: reading the questions, digests, and writing the answers. A line is a
// name, then words of 16 hexadecimal digits in lower case, each after a space, a newline at the end.
// A list is its length and its elements.
#![tactic(auto)]

pub mod digests;
pub mod put;
pub mod question;
pub mod words;

ghost use Rattle.std.specs.Prelude.{◌≡◌, IfOk, OnOk, from_bits};
ghost use Rattle.std.specs.Float.{binary64};
ghost use Rattle.replay_lines.specs.Hex.{one_nan};
ghost use Rattle.replay_lines.specs.Filling.{Filled};
ghost use Rattle.replay_lines.specs.Replay.{AnswersAll};
ghost use Rattle.replay_lines.specs.declared.question.Question.{Question};

use crate::question::{Lines, Question, read_words};
use std::io;
use std::io::{Read, Write};

// Reads until a buffer is full or the input ends, and says how many bytes that were. Only a read itself tells how far
// it comes, so there is no list or range to loop over.
#[tactic(auto, using(crate::proofs::Filling::read_more))]
pub fn read_full<R: Read>(from: &mut R, buf: &mut [u8]) -> io::Result<usize>
    ensures { IfOk result (λ n. Filled (R.remaining from.old) (R.remaining from.new) n buf.new) }
{
    let mut n: usize = 0;
    while n < buf.len() {
        let got = from.read(&mut buf[n..])?;
        if got == 0 {
            return Ok(n);
        }
        n += got;
    }
    Ok(n)
}

// What answers the questions of an input. A trait, and no closure: a closure may ask something of each call, which
// `answer_all` would have to ask of its caller, and a method whose trait asks nothing takes every question.
pub trait Answers<W> {
    ghost gives: { Self → W → Question → W → Type 0 } = { λ _ _ _ _. Unit {0} };

    fn answer(&self, to: &mut W, question: Question) -> io::Result<()>
        ensures { OnOk result (gives self.now to.old question.entry to.new) };
}

// Answers each question of an input, of which the first 65,536 bytes are read. They fit an array, so that the programs
// take no memory, as the estimator takes none.
pub fn answer_all<R: Read, W: Write, A: Answers<W>>(
    from: &mut R,
    to: &mut W,
    answers: &A,
) -> io::Result<()>
    ensures { OnOk result
        (AnswersAll A.gives answers.now (R.remaining from.old) (R.remaining from.new) to.old to.new) }
{
    let mut lines = [0u8; 65536];
    let n = read_full(from, &mut lines)?;
    let mut words = [0u64; 512];
    for line in Lines::new(&lines[..n]) {
        read_words(line, &mut words);
        answers.answer(to, Question::new(line, &words))?;
    }
    Ok(())
}

// The float of a bit pattern, a NaN's too.
#[tactic(auto, using(crate::proofs::Floats::nan_above, std::proofs::lemmas::Float::not_nan_f64_bits))]
pub fn float_of(bits: u64) -> f64
    ensures { result ≡ from_bits binary64 bits }
{
    if bits % 0x8000_0000_0000_0000 > 0x7FF0_0000_0000_0000 {
        return f64::NAN;
    }
    f64::from_bits(bits)
}

// The bit pattern of a float, one for every NaN.
#[tactic(auto, using(crate::proofs::Floats::ne_self))]
pub fn bits_of(x: f64) -> u64
    ensures { result ≡ one_nan x }
{
    if x.is_nan() {
        return 0x7FF8_0000_0000_0000;
    }
    f64::to_bits(x)
}
