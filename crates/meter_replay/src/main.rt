// Replays the oracle's questions about the fee flow meter. A line of standard input is the name
// `meter`, the clock at which a meter is opened, and a list of calls, each a kind (0 and 1 a read, 2
// an admission), a weight, a rate and a clock. A line of standard output has the meter after the
// calls: the fullness, the total, the decay clock, a digest of the rates and one of the rates as
// whole numbers.
#![tactic(auto)]

use rbitcoin_mempool::fee_flow::FeeFlowMeter;
use replay_lines::digests::{digest, mix};
use replay_lines::question::Question;
use replay_lines::words::Words;
use replay_lines::{Answers, bits_of, put};
use std::io;
use std::io::Write;

// The bit patterns of the rates.
fn rates_digest(rates: &[f64]) -> u64 {
    rates.iter().fold(0, |d, rate| mix(d, bits_of(*rate)))
}

fn put_meter<W: Write>(to: &mut W, m: FeeFlowMeter) -> io::Result<()> {
    put::word(to, bits_of(m.full()))?;
    put::next(to, bits_of(m.admitted_wu))?;
    put::next(to, m.last)?;
    put::next(to, rates_digest(&m.admit_wu_s))?;
    put::next(to, digest(0, &m.rates()))?;
    put::newline(to)
}

// A read or an admission.
fn called(m: FeeFlowMeter, words: &mut Words) -> FeeFlowMeter {
    let kind = words.next::<u64>();
    let weight = words.next();
    let rate = words.next();
    let clock = words.next();
    match kind {
        0 | 1 => m.decay_to(clock),
        _ => m.admit(weight, rate, clock),
    }
}

// The clock, the number of calls, and the calls.
fn replay(mut words: Words) -> FeeFlowMeter {
    let mut m = FeeFlowMeter::new(words.next());
    for _ in 0..words.count() {
        m = called(m, &mut words);
    }
    m
}

// What answers this part's questions.
#[derive(Clone, Copy)]
struct Part;

impl<W: Write> Answers<W> for Part {
    fn answer(&self, to: &mut W, question: Question) -> io::Result<()> {
        match question.name {
            b"meter" => put_meter(to, replay(question.words)),
            _ => put::unknown(to),
        }
    }
}

fn main(rt: HostRuntime) -> io::Result<()> {
    replay_lines::answer_all(&mut rt.stdin(), &mut rt.stdout(), &Part)
}
