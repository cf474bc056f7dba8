// Replays the oracle's questions about the pair windows. A line of standard input is a name and its
// arguments, a list as its length and its elements; a line of standard output has the results in the
// same form, of a rate the refusal's number, the mark and the rate. `windows` has targets and calls on
// windows of 24 places, each a kind (0 and 1 push, 2 and 3 pop, behind and in front, 4 rebuilds) and a
// word, and is answered by digests. `rate_sat_kvb` says how its hurdles are worked out.
#![tactic(auto)]

ghost use Rattle.std.specs.Prelude.{◌<◌};

use rbitcoin_mempool::answer::{Rate, Refusal};
use rbitcoin_mempool::fee_analog;
use rbitcoin_mempool::fee_analog::{AnalogHistory, End, WindowLists, WindowMemory};
use replay_lines::digests::{Hurdles, digest, mix};
use replay_lines::question::Question;
use replay_lines::words::{Words, at_most, part};
use replay_lines::{Answers, put};
use std::io::Write;
use std::{array, io};

// The quantile, and the list as it is left.
fn quantile<W: Write>(to: &mut W, mut words: Words) -> io::Result<()> {
    let confidence = words.f64();
    let mut outcomes = words.list_of::<u64, 512>();
    let found = fee_analog::log_quantile(&mut outcomes, confidence);
    put::rate(to, found.map(Some))?;
    put::space(to)?;
    put::list(to, &outcomes)?;
    put::newline(to)
}

// A call on windows, with a hurdle, or the word that its hurdles are worked out from.
enum Call {
    Push(End, u64),
    Pop(End),
    Rebuild(u64),
}

fn next_call(words: &mut Words) -> Call {
    let kind = words.next::<u64>();
    let word = words.next();
    match kind {
        0 => Call::Push(End::Newest, word),
        1 => Call::Push(End::Oldest, word),
        2 => Call::Pop(End::Newest),
        3 => Call::Pop(End::Oldest),
        _ => Call::Rebuild(word),
    }
}

// The pairs of one target, in its regions of both lists, as `chunks` parts them. The logarithm of a number of at least
// 1 has no sign.
fn pairs_digest(start: u64, s: &AnalogHistory, n: u32, befores: &[f64], aheads: &[u64]) -> u64 {
    let pairs = s.pairs(n).unwrap_or(0);
    let lookback = fee_analog::analog_lookback(n);
    let mut digest = mix(start, pairs as u64);
    let held = befores.iter().zip(aheads).skip(s.start);
    for (before, ahead) in held.skip(lookback).take(pairs) {
        digest = mix(mix(digest, num::float::abs_bits(*before)), *ahead);
    }
    digest
}

// Windows and the memory that they are held in.
#[derive(Drop)]
struct Windows<const PLACES: usize, const PAIRS: usize> {
    state: AnalogHistory,
    hurdles: [u64; PLACES],
    befores: [f64; PAIRS],
    aheads: [u64; PAIRS],
}

impl<const PLACES: usize, const PAIRS: usize> Windows<PLACES, PAIRS> {
    fn unopened() -> Self {
        Windows {
            state: AnalogHistory::unopened(),
            hurdles: [0; PLACES],
            befores: [0.0; PAIRS],
            aheads: [0; PAIRS],
        }
    }

    // As in `history_replay`, whose sizes and other lists differ; `replay_lines`, which both use, knows no windows.
    fn lists(&self) -> WindowLists<'_> {
        WindowLists {
            hurdles: &self.hurdles,
            befores: &self.befores,
            aheads: &self.aheads,
        }
    }

    // Refused, they stay unopened.
    fn open(&mut self, targets: &[u32]) -> Result<(), Refusal> {
        self.state = AnalogHistory::new(targets, PLACES, self.lists())?;
        Ok(())
    }

    fn push(&mut self, end: End, hurdle: u64) -> Result<(), Refusal> {
        let mut memory = WindowMemory {
            hurdles: &mut self.hurdles,
            befores: &mut self.befores,
            aheads: &mut self.aheads,
        };
        self.state.push(end, hurdle, &mut memory)
    }

    fn rebuild(&mut self, from: &[u64]) -> Result<(), Refusal> {
        let mut memory = WindowMemory {
            hurdles: &mut self.hurdles,
            befores: &mut self.befores,
            aheads: &mut self.aheads,
        };
        self.state.rebuild(from, &mut memory)
    }

    // It rebuilds from up to 31 hurdles.
    fn call(&mut self, call: Call) -> Result<(), Refusal> {
        match call {
            Call::Push(end, hurdle) => self.push(end, hurdle),
            Call::Pop(end) => self.state.pop(end),
            Call::Rebuild(word) => {
                let from: [u64; 32] = array::from_fn(|i| word ^ i as u64);
                let n = (word % 32) as usize;
                self.rebuild(&from[..n])
            }
        }
    }

    // The held hurdles.
    fn hurdles_digest(&self) -> u64 {
        digest(0, part(&self.hurdles, self.state.start, self.state.count))
    }

    // The pairs of every target.
    fn all_pairs(&self) -> u64
        requires { 0 < PLACES }
    {
        let regions = self.befores.chunks(PLACES).zip(self.aheads.chunks(PLACES));
        let targets = self.state.targets.iter().take(self.state.tracked);
        let mut digest: u64 = 0;
        for (n, (befores, aheads)) in targets.zip(regions) {
            digest = pairs_digest(digest, &self.state, *n, befores, aheads);
        }
        digest
    }
}

// Targets, the number of calls, and the calls.
fn put_windows<W: Write>(to: &mut W, mut words: Words) -> io::Result<()> {
    let targets = words.list_of::<u32, 17>();
    let mut windows = Windows::<24, 384>::unopened();
    let mut refusals = put::refusal_number(windows.open(&targets));
    for _ in 0..words.count() {
        let outcome = windows.call(next_call(&mut words));
        refusals = mix(refusals, put::refusal_number(outcome));
    }
    put::word(to, refusals)?;
    put::next(to, windows.state.count as u64)?;
    put::next(to, windows.hurdles_digest())?;
    put::next(to, windows.all_pairs())?;
    put::newline(to)
}

// How the hurdles are worked out, a target, a confidence, and the places of the scratch list.
fn rate(mut words: Words) -> Result<Rate, Refusal> {
    let shape = Hurdles::new(words.part(6));
    let n = shape.count;
    let target = words.next();
    let confidence = words.f64();
    let mut from = [0u64; 2304];
    for (place, hurdle) in from.iter_mut().zip(shape) {
        *place = hurdle;
    }
    let mut windows = Windows::<2304, 2304>::unopened();
    let _ = windows.open(&[target]);
    let _ = windows.rebuild(&from[..n]);
    let mut scratch = [0u64; 2304];
    let z = at_most(words.next(), &scratch);
    let lists = windows.lists();
    windows
        .state
        .rate_sat_kvb(target, confidence, lists, &mut scratch[..z])
}

// What answers this part's questions.
#[derive(Clone, Copy)]
struct Part;

impl<W: Write> Answers<W> for Part {
    fn answer(&self, to: &mut W, question: Question) -> io::Result<()> {
        let mut words = question.words;
        match question.name {
            b"analog_lookback" => put::only(to, fee_analog::analog_lookback(words.next()) as u64),
            b"ln_rate" => put::only(to, num::float::abs_bits(fee_analog::ln_rate(words.next()))),
            b"lower_median" => put::only_rate(to, fee_analog::lower_median(words.list()).map(Some)),
            b"log_quantile" => quantile(to, words),
            b"windows" => put_windows(to, words),
            b"rate_sat_kvb" => put::only_rate(to, rate(words)),
            _ => put::unknown(to),
        }
    }
}

fn main(rt: HostRuntime) -> io::Result<()> {
    replay_lines::answer_all(&mut rt.stdin(), &mut rt.stdout(), &Part)
}
