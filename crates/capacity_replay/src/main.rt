// Replays the oracle's questions about edges and capacity. A line of standard input is a function's
// name and its arguments, a list as its length and its elements; a line of standard output has the
// results in the same form, of a rate the refusal's number, the mark and the rate.
#![tactic(auto)]

use rbitcoin_mempool::answer::{Rate, Refusal};
use rbitcoin_mempool::fee_est;
use replay_lines::question::Question;
use replay_lines::words::Words;
use replay_lines::{Answers, put};
use std::io;
use std::io::Write;

fn put_list<W: Write>(to: &mut W, list: &[u64]) -> io::Result<()> {
    put::list(to, list)?;
    put::newline(to)
}

fn min_rate(mut words: Words) -> Result<Rate, Refusal> {
    let n = words.next();
    fee_est::min_rate_for_capacity(words.list(), words.list(), words.list(), n)
}

fn suffix(mut words: Words) -> [u64; 403] {
    let horizon = words.next();
    fee_est::inflow_suffix_wu(words.list(), horizon)
}

fn percentile(mut words: Words) -> Rate {
    let pct = words.next();
    fee_est::percentile_sat(words.list(), pct)
}

// What answers this part's questions.
#[derive(Clone, Copy)]
struct Part;

impl<W: Write> Answers<W> for Part {
    fn answer(&self, to: &mut W, question: Question) -> io::Result<()> {
        let mut words = question.words;
        match question.name {
            b"bucket_count" => put::only(to, fee_est::bucket_count() as u64),
            b"flow_bucket_edges" => put_list(to, &fee_est::flow_bucket_edges()),
            b"default_candidate_rates" => put_list(to, &fee_est::default_candidate_rates()),
            b"fine_candidate_rates" => put_list(to, &fee_est::fine_candidate_rates()),
            b"bucket_index" => put::only(to, fee_est::bucket_index(words.next()) as u64),
            b"first_bucket_above" => put::only(
                to,
                fee_est::first_bucket_above(words.next()) as u64,
            ),
            b"capacity_wu" => put::only(to, fee_est::capacity_wu(words.next())),
            b"horizon_secs" => put::only(to, fee_est::horizon_secs(words.next())),
            b"inflow_horizon_secs" => put::only(to, fee_est::inflow_horizon_secs(words.next())),
            b"effective_capacity_wu" => put::only(to, fee_est::effective_capacity_wu(words.next())),
            b"inclusion_confidence" => put::float(to, fee_est::inclusion_confidence(words.next())),
            b"inflow_suffix_wu" => put_list(to, &suffix(words)),
            b"min_rate_for_capacity" => put::only_rate(to, min_rate(words)),
            b"percentile_sat" => put::only_rate::<_, Refusal>(to, Ok(percentile(words))),
            _ => put::unknown(to),
        }
    }
}

fn main(rt: HostRuntime) -> io::Result<()> {
    replay_lines::answer_all(&mut rt.stdin(), &mut rt.stdout(), &Part)
}
