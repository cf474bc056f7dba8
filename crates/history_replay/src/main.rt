// Replays the oracle's questions about the held blocks. A line of standard input is a name and its
// words; a line of standard output has the results in the same form. Calls on a history are two words
// each: the call and its block are worked out from them. `calls` has a budget, targets and calls on a
// history of 24 places, and is answered by digests. `rates` says how its blocks are worked out, which are
// connected to a history of 2,304 places; it has two targets.
#![tactic(auto)]

use rbitcoin_mempool::answer::Refusal;
use rbitcoin_mempool::fee_analog::{WindowLists, WindowMemory};
use rbitcoin_mempool::fee_est::{Marked, MarkedMut};
use rbitcoin_net::fee_history::{
    BlockHash, FeeHistory, HashLists, HashMemory, HistoricalFeeBlock, RowLists, RowMemory,
};
use replay_lines::digests::{Hurdles, digest, mix};
use replay_lines::question::Question;
use replay_lines::words::{Low, Words, at_most, word_at};
use replay_lines::{Answers, put};
use std::io;
use std::io::Write;

fn mix_block(digest: u64, block: HistoricalFeeBlock) -> u64 {
    let digest = match block.p10_sat_kvb {
        Some(rate) => mix(mix(digest, 2), rate),
        None => mix(digest, 1),
    };
    mix(digest, block.txstat_bytes)
}

fn mix_found(digest: u64, answer: Result<Option<HistoricalFeeBlock>, Refusal>) -> u64 {
    match answer {
        Ok(Some(block)) => mix_block(digest, block),
        Ok(None) => mix(digest, 0),
        Err(refusal) => mix(digest, 16 + u64::from(u8::from(refusal))),
    }
}

// What a call does, by the last two bits of its code.
#[derive(Clone, Copy)]
enum Kind {
    Connect,
    Preload,
    Cut,
}

impl From<u64> for Kind {
    fn from(code: u64) -> Kind {
        match code % 4 {
            0 => Kind::Connect,
            1 => Kind::Preload,
            _ => Kind::Cut,
        }
    }
}

// The word's bytes four times, each XOR its place.
fn hash_of(word: u64) -> BlockHash {
    let mut bytes = [0u8; 32];
    let mut x = word;
    for (i, byte) in bytes.iter_mut().enumerate() {
        *byte = u8::low(x ^ i as u64);
        x = x.rotate_right(8);
    }
    BlockHash { bytes }
}

// A call on a history.
#[derive(Clone, Copy)]
struct Call {
    kind: Kind,
    height: u32,
    block: HistoricalFeeBlock,
    hash: Option<BlockHash>,
}

impl Call {
    // As two words say it. The rate is the word itself, and there if bit 2 of the code is set; the byte count the
    // word's last three decimal digits, or with bit 3 the whole word; the hash is there if bit 4 is set.
    fn read(code: u64, word: u64) -> Call {
        Call {
            kind: Kind::from(code),
            height: (code >> 32) as u32,
            block: HistoricalFeeBlock {
                p10_sat_kvb: (code & 4 == 4).then_some(word),
                txstat_bytes: if code & 8 == 8 { word } else { word % 1000 },
            },
            hash: (code & 16 == 16).then_some(hash_of(word)),
        }
    }

    // With a rate, its last three decimal digits for the byte count, and no hash.
    fn rated(kind: Kind, height: u32, rate: u64) -> Call {
        Call {
            kind,
            height,
            block: HistoricalFeeBlock {
                p10_sat_kvb: Some(rate),
                txstat_bytes: rate % 1000,
            },
            hash: None,
        }
    }
}

// Rows that were written.
fn rows_digest(n: usize, rows: RowLists) -> u64 {
    let mut digest: u64 = 0;
    let places = rows.heights.iter().zip(rows.marks);
    let blocks = rows.rates.iter().zip(rows.sizes);
    for ((height, mark), (rate, size)) in places.zip(blocks).take(n) {
        digest = mix(mix(digest, u64::from(*height)), u64::from(*mark));
        digest = mix(mix(digest, *rate), *size);
    }
    digest
}

// The refusal, and the answer's lists whole.
fn put_answer<W: Write>(to: &mut W, outcome: Result<(), Refusal>, out: Marked) -> io::Result<()> {
    put::word(to, put::refusal_number(outcome))?;
    for (mark, number) in out.marks.iter().zip(out.numbers) {
        put::next(to, u64::from(*mark))?;
        put::next(to, *number)?;
    }
    Ok(())
}

// A history of up to 2,304 places and two targets, and the memory that it is held in.
#[derive(Drop)]
struct History {
    state: FeeHistory,
    heights: [u32; 2304],
    marks: [u8; 2304],
    rates: [u64; 2304],
    sizes: [u64; 2304],
    kept: [u32; 144],
    bytes: [u8; 4608],
    hurdles: [u64; 2304],
    befores: [f64; 4608],
    aheads: [u64; 4608],
}

impl History {
    fn unopened() -> History {
        History {
            state: FeeHistory::unopened(),
            heights: [0; 2304],
            marks: [0; 2304],
            rates: [0; 2304],
            sizes: [0; 2304],
            kept: [0; 144],
            bytes: [0; 4608],
            hurdles: [0; 2304],
            befores: [0.0; 4608],
            aheads: [0; 4608],
        }
    }

    fn rows(&self) -> RowLists<'_> {
        RowLists {
            heights: &self.heights,
            marks: &self.marks,
            rates: &self.rates,
            sizes: &self.sizes,
        }
    }

    fn hashes(&self) -> HashLists<'_> {
        HashLists {
            heights: &self.kept,
            bytes: &self.bytes,
        }
    }

    // As in `windows_replay`, whose sizes and other lists differ; `replay_lines`, which both use, knows no windows.
    fn windows(&self) -> WindowLists<'_> {
        WindowLists {
            hurdles: &self.hurdles,
            befores: &self.befores,
            aheads: &self.aheads,
        }
    }

    // Refused, it stays unopened.
    fn open(&mut self, budget: u64, targets: &[u32], capacity: usize) -> Result<(), Refusal> {
        let (rows, hashes, windows) = (self.rows(), self.hashes(), self.windows());
        self.state = FeeHistory::new(budget, targets, capacity, rows, hashes, windows)?;
        Ok(())
    }

    fn call(&mut self, call: Call) -> Result<(), Refusal> {
        let mut rows = RowMemory {
            heights: &mut self.heights,
            marks: &mut self.marks,
            rates: &mut self.rates,
            sizes: &mut self.sizes,
        };
        let mut hashes = HashMemory {
            heights: &mut self.kept,
            bytes: &mut self.bytes,
        };
        let mut windows = WindowMemory {
            hurdles: &mut self.hurdles,
            befores: &mut self.befores,
            aheads: &mut self.aheads,
        };
        let Call {
            kind,
            height,
            block,
            hash,
        } = call;
        match kind {
            Kind::Connect => {
                self.state
                    .insert(height, block, hash, &mut rows, &mut hashes, &mut windows)
            }
            Kind::Preload => {
                self.state
                    .insert_if_absent(height, block, hash, &mut rows, &mut hashes, &mut windows)
            }
            Kind::Cut => self
                .state
                .truncate_above(height, rows.lists(), hashes.lists()),
        }
    }

    // A call, and the digest with its refusal and the block that it left at its height.
    fn digest_call(&mut self, digest: u64, call: Call) -> u64 {
        let refusal = put::refusal_number(self.call(call));
        let held = self.state.get(call.height, self.rows());
        mix_found(mix(digest, refusal), held)
    }

    // The rows, as `entries` writes them: their number and a digest.
    fn put_entries<W: Write>(&self, to: &mut W) -> io::Result<()> {
        let mut heights = [0u32; 26];
        let mut marks = [0u8; 26];
        let mut rates = [0u64; 26];
        let mut sizes = [0u64; 26];
        let mut out = RowMemory {
            heights: &mut heights,
            marks: &mut marks,
            rates: &mut rates,
            sizes: &mut sizes,
        };
        let n = self.state.entries(self.rows(), &mut out).unwrap_or(0);
        put::next(to, n as u64)?;
        put::next(to, rows_digest(n, out.lists()))
    }

    // The hashes, as `recent_hashes` writes them into lists of zeros: their number and a digest.
    fn put_hashes<W: Write>(&self, to: &mut W) -> io::Result<()> {
        let mut heights = [0u32; 144];
        let mut bytes = [0u8; 4608];
        let mut out = HashMemory {
            heights: &mut heights,
            bytes: &mut bytes,
        };
        let n = self
            .state
            .recent_hashes(self.hashes(), &mut out)
            .unwrap_or(0);
        put::next(to, n as u64)?;
        put::next(to, digest(digest(0, &heights), &bytes))
    }

    // The total, the number of hurdles and whether they are stale.
    fn put_state<W: Write>(&self, to: &mut W) -> io::Result<()> {
        put::next(to, self.state.txstat_bytes)?;
        put::next(to, self.state.analog.count as u64)?;
        put::next(to, u64::from(self.state.analog_stale))
    }

    // The places are the scratch list's.
    fn put_rates<W: Write>(&mut self, to: &mut W, places: u64) -> io::Result<()> {
        let mut scratch = [0u64; 2304];
        let z = at_most(places, &scratch);
        let mut numbers = [77u64; 3];
        let mut marks = [77u8; 3];
        let rows = RowLists {
            heights: &self.heights,
            marks: &self.marks,
            rates: &self.rates,
            sizes: &self.sizes,
        };
        let mut windows = WindowMemory {
            hurdles: &mut self.hurdles,
            befores: &mut self.befores,
            aheads: &mut self.aheads,
        };
        let mut out = MarkedMut {
            numbers: &mut numbers,
            marks: &mut marks,
        };
        let outcome = self
            .state
            .rates(rows, &mut windows, &mut scratch[..z], &mut out);
        put_answer(to, outcome, out.as_marked())
    }
}

// A budget, targets, the number of calls, and the calls.
fn calls<W: Write>(to: &mut W, mut words: Words) -> io::Result<()> {
    let budget = words.next();
    let targets = words.list_of::<u32, 17>();
    let count = words.count();
    let mut history = History::unopened();
    let mut digest = put::refusal_number(history.open(budget, &targets, 24));
    for call in words.part(2 * count).chunks(2) {
        let call = Call::read(word_at(call, 0), word_at(call, 1));
        digest = history.digest_call(digest, call);
    }
    put::word(to, digest)?;
    history.put_state(to)?;
    history.put_entries(to)?;
    history.put_hashes(to)?;
    put::newline(to)
}

// How the blocks are worked out that are connected at every second height, from 0 on; two targets; where the next word
// is not 0 also a preload of height 1001, which makes the windows stale where it lies between held heights and there is
// room; the places of a scratch list. Fresh rates, then kept ones.
fn rates<W: Write>(to: &mut W, mut words: Words) -> io::Result<()> {
    let shape = words.part(6);
    let targets = [words.next(), words.next()];
    let mut history = History::unopened();
    let _ = history.open(u64::MAX, &targets, 2304);
    let heights = (0u32..4608).step_by(2);
    for (height, rate) in heights.zip(Hurdles::new(shape)) {
        let _ = history.call(Call::rated(Kind::Connect, height, rate));
    }
    if words.next::<u64>() != 0 {
        let _ = history.call(Call::rated(Kind::Preload, 1001, word_at(shape, 1)));
    }
    let places = words.next();
    history.put_rates(to, places)?;
    put::space(to)?;
    history.put_rates(to, places)?;
    put::newline(to)
}

// What answers this part's questions.
#[derive(Clone, Copy)]
struct Part;

impl<W: Write> Answers<W> for Part {
    fn answer(&self, to: &mut W, question: Question) -> io::Result<()> {
        match question.name {
            b"calls" => calls(to, question.words),
            b"rates" => rates(to, question.words),
            _ => put::unknown(to),
        }
    }
}

fn main(rt: HostRuntime) -> io::Result<()> {
    replay_lines::answer_all(&mut rt.stdin(), &mut rt.stdout(), &Part)
}
