// Replays the oracle's questions about depth rates and targets. A line of standard input is a
// function's name and its arguments; a rate that may be missing is its mark and its number, a list its
// length and its elements. A line of standard output has the results in the same form: of a loop or a
// hold pass the refusal's number or 0, the numbers and the marks; of a lookup the refusal's number or
// 0, the mark and the rate.
#![tactic(auto)]

use rbitcoin_mempool::answer::{Rate, Refusal};
use rbitcoin_mempool::fee_est;
use rbitcoin_mempool::fee_est::{DepthLists, Marked, MarkedMut};
use replay_lines::question::Question;
use replay_lines::words::Words;
use replay_lines::{Answers, put};
use std::io;
use std::io::Write;

// How many elements are kept of a list that is put in an array.
const MOST: usize = 64;

// A line of one rate that may be missing.
fn put_rate<W: Write>(to: &mut W, rate: Rate) -> io::Result<()> {
    put::marked(to, rate)?;
    put::newline(to)
}

// The refusal's number or 0, and the lists as they are left.
fn put_left<W: Write>(to: &mut W, outcome: Result<(), Refusal>, left: Marked) -> io::Result<()> {
    put::word(to, put::refusal_number(outcome))?;
    put::space(to)?;
    put::list(to, left.numbers)?;
    put::space(to)?;
    put::list(to, left.marks)?;
    put::newline(to)
}

// A rate that is there has the mark 1, as the lines of the comparison have it.
fn rate(words: &mut Words) -> Rate {
    let mark = words.next::<u64>();
    let number = words.next();
    (mark == 1).then_some(number)
}

fn marked<'a>(numbers: &'a [u64], marks: &'a [u8]) -> Marked<'a> {
    Marked { numbers, marks }
}

fn monotone<W: Write>(to: &mut W, mut words: Words) -> io::Result<()> {
    let mut rates = words.list_of::<u64, MOST>();
    fee_est::enforce_monotone_desc(&mut rates);
    put::list(to, &rates)?;
    put::newline(to)
}

fn hold<W: Write>(to: &mut W, mut words: Words) -> io::Result<()> {
    let mut numbers = words.list_of::<u64, MOST>();
    let mut marks = words.list_of::<u8, MOST>();
    let mut held = MarkedMut {
        numbers: &mut numbers,
        marks: &mut marks,
    };
    let outcome = fee_est::hold_defined_then_monotone(&mut held);
    put_left(to, outcome, held.as_marked())
}

fn lookup(mut words: Words) -> Result<Rate, Refusal> {
    let target = words.next();
    let depths = words.list_of::<u32, MOST>();
    let numbers = words.list();
    let marks = words.list_of::<u8, MOST>();
    fee_est::fee_at_target_sat_kvb(&depths, marked(numbers, &marks), target)
}

// Depths, three lists of rates with their marks, a list to write with its marks, a rate and a share.
fn publish<W: Write>(to: &mut W, mut words: Words) -> io::Result<()> {
    let depths = words.list_of::<u32, MOST>();
    let projected = words.list();
    let projected_marks = words.list_of::<u8, MOST>();
    let frontier = words.list();
    let frontier_marks = words.list_of::<u8, MOST>();
    let history = words.list();
    let history_marks = words.list_of::<u8, MOST>();
    let mut out = words.list_of::<u64, MOST>();
    let mut out_marks = words.list_of::<u8, MOST>();
    let lists = DepthLists {
        depths: &depths,
        projected: marked(projected, &projected_marks),
        frontier: marked(frontier, &frontier_marks),
        history: marked(history, &history_marks),
        confirm: rate(&mut words),
        alpha: words.f64(),
    };
    let mut published = MarkedMut {
        numbers: &mut out,
        marks: &mut out_marks,
    };
    let outcome = fee_est::published_depth_rates(&lists, &mut published);
    put_left(to, outcome, published.as_marked())
}

// Two rates for a depth.
fn of_depth(combine: fn(Rate, Rate, u32) -> Rate, mut words: Words) -> Rate
    requires { IsAlwaysCallable combine }
{
    let n = words.next();
    combine(rate(&mut words), rate(&mut words), n)
}

fn warmup(mut words: Words) -> Rate {
    fee_est::warmup_blend(words.f64(), rate(&mut words), rate(&mut words))
}

fn depth_rate(mut words: Words) -> Rate {
    fee_est::depth_rate_sat_kvb(
        words.next(),
        words.next::<u64>() == 1,
        rate(&mut words),
        rate(&mut words),
        rate(&mut words),
    )
}

fn published(mut words: Words) -> Rate {
    fee_est::published_depth_rate(
        words.next(),
        words.f64(),
        rate(&mut words),
        rate(&mut words),
        rate(&mut words),
        rate(&mut words),
    )
}

fn lerp(mut words: Words) -> u64 {
    fee_est::lerp_sat_kvb(
        words.next(),
        words.next(),
        words.next(),
        words.next(),
        words.next(),
    )
}

// What answers this part's questions.
#[derive(Clone, Copy)]
struct Part;

impl<W: Write> Answers<W> for Part {
    fn answer(&self, to: &mut W, question: Question) -> io::Result<()> {
        let mut words = question.words;
        match question.name {
            b"blend_weight" => put::float(to, fee_est::blend_weight(words.next())),
            b"flow_for_depth" => put_rate(to, of_depth(fee_est::flow_for_depth, words)),
            b"blend_sat_kvb" => put_rate(to, of_depth(fee_est::blend_sat_kvb, words)),
            b"warmup_blend" => put_rate(to, warmup(words)),
            b"depth_rate_sat_kvb" => put_rate(to, depth_rate(words)),
            b"published_depth_rate" => put_rate(to, published(words)),
            b"lerp_sat_kvb" => put::only(to, lerp(words)),
            b"enforce_monotone_desc" => monotone(to, words),
            b"hold_defined_then_monotone" => hold(to, words),
            b"published_depth_rates" => publish(to, words),
            b"fee_at_target_sat_kvb" => put::only_rate(to, lookup(words)),
            _ => put::unknown(to),
        }
    }
}

fn main(rt: HostRuntime) -> io::Result<()> {
    replay_lines::answer_all(&mut rt.stdin(), &mut rt.stdout(), &Part)
}
