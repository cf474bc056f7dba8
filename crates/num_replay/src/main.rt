// Replays the oracle's questions about the crate `num`. A line of standard input is a function's name
// and its arguments, and a line of standard output its results, a NaN as `nan`.
#![tactic(auto)]

use num::wide::{Wide, WideDivision};
use replay_lines::question::Question;
use replay_lines::words::Words;
use replay_lines::{Answers, put};
use std::io;
use std::io::Write;

fn wide(words: &mut Words) -> Wide {
    Wide {
        hi: words.next(),
        lo: words.next(),
    }
}

fn put_wide<W: Write>(to: &mut W, n: Wide) -> io::Result<()> {
    put::word(to, n.hi)?;
    put::next(to, n.lo)?;
    put::newline(to)
}

fn put_division<W: Write>(to: &mut W, d: WideDivision) -> io::Result<()> {
    put::word(to, d.quotient.hi)?;
    put::next(to, d.quotient.lo)?;
    put::next(to, d.remainder)?;
    put::newline(to)
}

// What answers this part's questions. The arguments that are not there are 0.
#[derive(Clone, Copy)]
struct Part;

impl<W: Write> Answers<W> for Part {
    fn answer(&self, to: &mut W, question: Question) -> io::Result<()> {
        let mut words = question.words;
        match question.name {
            b"saturating_add" => put::only(
                to,
                num::word::saturating_add(words.next(), words.next()),
            ),
            b"saturating_sub" => put::only(
                to,
                num::word::saturating_sub(words.next(), words.next()),
            ),
            b"saturating_mul" => put::only(
                to,
                num::word::saturating_mul(words.next(), words.next()),
            ),
            b"least" => put::only(to, num::word::least(words.next(), words.next())),
            b"greatest" => put::only(to, num::word::greatest(words.next(), words.next())),
            b"wide_product" => put_wide(to, num::wide::wide_product(words.next(), words.next())),
            b"wide_sum" => put_wide(to, num::wide::wide_sum(wide(&mut words), wide(&mut words))),
            b"wide_divide" => put_division(
                to,
                num::wide::wide_divide(wide(&mut words), words.next()),
            ),
            b"f64_from_u64" => put::float(to, num::float::from_u64(words.next())),
            b"ln" => put::float(to, num::ln::ln(words.next())),
            b"ln_1_25" => put::float(to, num::ln::ln_1_25()),
            b"f64_to_u64" => put::only(to, num::float::to_u64(words.f64())),
            b"round_to_u64" => put::only(to, num::float::round_to_u64(words.f64())),
            b"is_finite" => put::only(to, u64::from(num::float::is_finite(words.f64()))),
            b"floor" => put::float(to, num::float::floor(words.f64())),
            b"ceil" => put::float(to, num::float::ceil(words.f64())),
            b"exp" => put::float(to, num::exp::exp(words.f64())),
            b"max" => put::float(to, num::float::max(words.f64(), words.f64())),
            b"clamp" => put::float(to, num::float::clamp(words.f64(), words.f64(), words.f64())),
            _ => put::unknown(to),
        }
    }
}

fn main(rt: HostRuntime) -> io::Result<()> {
    replay_lines::answer_all(&mut rt.stdin(), &mut rt.stdout(), &Part)
}
