// The functions of the held blocks. The state passes by value, and so do a block and a hash. C has no Option and no
// Result: in its structs a mark or a flag says whether something is there, and a number what was refused.
ghost use Rattle.std.specs.Prelude.{◌≡◌};
ghost use Rattle.rbitcoin_mempool.specs.Counted.{counted_of};
ghost use Rattle.rbitcoin_mempool.specs.Outcome.{verdict, verdict_of};
ghost use Rattle.rbitcoin_mempool.specs.Rates.{given, mark_of, number_of};
ghost use Rattle.rbitcoin_net.specs.Cuts.{Truncates};
ghost use Rattle.rbitcoin_net.specs.Hashes.{hash_of};
ghost use Rattle.rbitcoin_net.specs.Inserts.{whole, Inserts, InsertsIfAbsent};
ghost use Rattle.rbitcoin_net.specs.Lent.{rows, hashes, lent};
ghost use Rattle.rbitcoin_net.specs.Openings.{Opens};
ghost use Rattle.rbitcoin_net.specs.Rates.{rated, outputs, AnswersRates};
ghost use Rattle.rbitcoin_net.specs.Readers.{Entries, RecentHashes};
ghost use Rattle.rbitcoin_net.specs.Search.{looked, get_in};
ghost use Rattle.exports.specs.Blocks.{block_of, hash_in, BlockIs};
ghost use Rattle.exports.specs.Counts.{count_number};

use crate::rate::refusal_number;
use crate::windows::{CountFields, answered, one_by_one};
use rbitcoin_mempool::answer::Refusal;
use rbitcoin_mempool::fee_analog::{WindowLists, WindowMemory};
use rbitcoin_mempool::fee_est::MarkedMut;
use rbitcoin_net::fee_history;
use rbitcoin_net::fee_history::{
    FeeHistory, HashLists, HashMemory, HistoricalFeeBlock, RowLists, RowMemory,
};

// A block: the mark 1 and the rate where it is there, and the byte count. As an argument the rate is
// missing under any other mark; as a result it is then 0 and 0.
#[repr(C)]
#[derive(Clone, Copy)]
pub struct MarkedBlock {
    pub mark: u8,
    pub rate: u64,
    pub bytes: u64,
}

// A hash, or none.
#[repr(C)]
#[derive(Clone, Copy)]
pub struct BlockHash {
    pub there: bool,
    pub bytes: [u8; 32],
}

// The number of a refusal or 0; whether the height is held, and its block; else zeros.
#[repr(C)]
#[derive(Clone, Copy)]
pub struct BlockFields {
    pub refusal: u8,
    pub held: bool,
    pub block: MarkedBlock,
}

// The number of a refusal or 0, and the state.
#[repr(C)]
#[derive(Clone, Copy)]
pub struct HistoryFields {
    pub refusal: u8,
    pub state: FeeHistory,
}

impl From<MarkedBlock> for HistoricalFeeBlock {
    ghost from_gives = { λ m b. b ≡ block_of m.mark m.rate m.bytes };

    fn from(m: MarkedBlock) -> HistoricalFeeBlock {
        HistoricalFeeBlock {
            p10_sat_kvb: (m.mark == 1).then_some(m.rate),
            txstat_bytes: m.bytes,
        }
    }
}

impl From<BlockHash> for Option<fee_history::BlockHash> {
    ghost from_gives = { λ h hash. hash_of hash ≡ hash_in h };

    fn from(h: BlockHash) -> Option<fee_history::BlockHash> {
        let bytes = h.bytes;
        if h.there {
            Some(fee_history::BlockHash { bytes })
        } else {
            None
        }
    }
}

impl From<HistoricalFeeBlock> for MarkedBlock {
    ghost from_gives = { λ b m. let r = given b.p10_sat_kvb in
        (m.mark ≡ mark_of r) × (m.rate ≡ number_of r) × (m.bytes ≡ b.txstat_bytes) };

    fn from(b: HistoricalFeeBlock) -> MarkedBlock {
        match b.p10_sat_kvb {
            Some(rate) => MarkedBlock {
                mark: 1,
                rate,
                bytes: b.txstat_bytes,
            },
            None => MarkedBlock {
                mark: 0,
                rate: 0,
                bytes: b.txstat_bytes,
            },
        }
    }
}

const NO_BLOCK: MarkedBlock = MarkedBlock {
    mark: 0,
    rate: 0,
    bytes: 0,
};

impl From<Result<Option<HistoricalFeeBlock>, Refusal>> for BlockFields {
    ghost from_gives = { λ a fields. let b = fields.block in
        BlockIs (looked a) fields.refusal fields.held b.mark b.rate b.bytes };

    fn from(a: Result<Option<HistoricalFeeBlock>, Refusal>) -> BlockFields {
        match a {
            Ok(Some(block)) => BlockFields {
                refusal: 0,
                held: true,
                block: block.into(),
            },
            Ok(None) => BlockFields {
                refusal: 0,
                held: false,
                block: NO_BLOCK,
            },
            Err(refusal) => BlockFields {
                refusal: refusal.into(),
                held: false,
                block: NO_BLOCK,
            },
        }
    }
}

// The same state for an answer, field by field, for the reason at `answered`.
fn answered_history(s: FeeHistory) -> FeeHistory
    ensures { result ≡ s }
{
    let analog = s.analog;
    let kept_numbers = s.kept_numbers;
    let kept_marks = s.kept_marks;
    FeeHistory {
        analog: answered(analog),
        analog_stale: s.analog_stale,
        start: s.start,
        count: s.count,
        txstat_bytes: s.txstat_bytes,
        budget: s.budget,
        hashes: s.hashes,
        kept: s.kept,
        kept_numbers: one_by_one(kept_numbers),
        kept_marks,
    }
}

// An answer, with the state by `answered_history`.
#[tactic(auto, using(crate::proofs::Verdicts::verdict_back))]
fn history_fields(outcome: Result<(), Refusal>, s: FeeHistory) -> HistoryFields
    ensures refusal { verdict_of result.refusal ≡ verdict outcome }
    ensures state { result.state ≡ s }
{
    HistoryFields {
        refusal: refusal_number(outcome),
        state: answered_history(s),
    }
}

#[unsafe(no_mangle)]
pub extern "C" fn juleyomu_history_new(
    budget: u64,
    targets: &[u32],
    capacity: usize,
    heights: &[u32],
    marks: &[u8],
    rates: &[u64],
    sizes: &[u64],
    hash_heights: &[u32],
    hash_bytes: &[u8],
    hurdles: &[u64],
    befores: &[f64],
    aheads: &[u64],
) -> HistoryFields
    ensures { let rows = rows heights.now marks.now rates.now sizes.now in
        let memory = lent rows (hashes hash_heights.now hash_bytes.now) hurdles.now befores.now aheads.now in
        Opens budget targets.now capacity memory (verdict_of result.refusal) result.state }
{
    let rows = RowLists {
        heights,
        marks,
        rates,
        sizes,
    };
    let hashes = HashLists {
        heights: hash_heights,
        bytes: hash_bytes,
    };
    let windows = WindowLists {
        hurdles,
        befores,
        aheads,
    };
    match FeeHistory::new(budget, targets, capacity, rows, hashes, windows) {
        Ok(s) => history_fields(Ok(()), s),
        Err(refusal) => history_fields(Err(refusal), FeeHistory::unopened()),
    }
}

#[unsafe(no_mangle)]
pub extern "C" fn juleyomu_history_get(
    state: FeeHistory,
    height: u32,
    heights: &[u32],
    marks: &[u8],
    rates: &[u64],
    sizes: &[u64],
) -> BlockFields
    ensures { let answer = get_in state (rows heights.now marks.now rates.now sizes.now) height in
        BlockIs answer result.refusal result.held result.block.mark result.block.rate result.block.bytes }
{
    let rows = RowLists {
        heights,
        marks,
        rates,
        sizes,
    };
    state.get(height, rows).into()
}

#[unsafe(no_mangle)]
pub extern "C" fn juleyomu_history_insert<'a>(
    state: FeeHistory,
    height: u32,
    block: MarkedBlock,
    hash: BlockHash,
    heights: &'a mut [u32],
    marks: &'a mut [u8],
    rates: &'a mut [u64],
    sizes: &'a mut [u64],
    hash_heights: &'a mut [u32],
    hash_bytes: &'a mut [u8],
    hurdles: &'a mut [u64],
    befores: &'a mut [f64],
    aheads: &'a mut [u64],
) -> HistoryFields
    ensures { let rows_old = rows heights.old marks.old rates.old sizes.old in
        let rows_new = rows heights.new marks.new rates.new sizes.new in
        let old = lent rows_old (hashes hash_heights.old hash_bytes.old) hurdles.old befores.old aheads.old in
        let new = lent rows_new (hashes hash_heights.new hash_bytes.new) hurdles.new befores.new aheads.new in
        Inserts height (block_of block.mark block.rate block.bytes) (hash_in hash)
        (whole state old) (verdict_of result.refusal) (whole result.state new) }
{
    let mut rows = RowMemory {
        heights,
        marks,
        rates,
        sizes,
    };
    let mut hashes = HashMemory {
        heights: hash_heights,
        bytes: hash_bytes,
    };
    let mut windows = WindowMemory {
        hurdles,
        befores,
        aheads,
    };
    let mut s = state;
    let outcome = s.insert(
        height,
        block.into(),
        hash.into(),
        &mut rows,
        &mut hashes,
        &mut windows,
    );
    history_fields(outcome, s)
}

#[unsafe(no_mangle)]
pub extern "C" fn juleyomu_history_insert_if_absent<'a>(
    state: FeeHistory,
    height: u32,
    block: MarkedBlock,
    hash: BlockHash,
    heights: &'a mut [u32],
    marks: &'a mut [u8],
    rates: &'a mut [u64],
    sizes: &'a mut [u64],
    hash_heights: &'a mut [u32],
    hash_bytes: &'a mut [u8],
    hurdles: &'a mut [u64],
    befores: &'a mut [f64],
    aheads: &'a mut [u64],
) -> HistoryFields
    ensures { let rows_old = rows heights.old marks.old rates.old sizes.old in
        let rows_new = rows heights.new marks.new rates.new sizes.new in
        let old = lent rows_old (hashes hash_heights.old hash_bytes.old) hurdles.old befores.old aheads.old in
        let new = lent rows_new (hashes hash_heights.new hash_bytes.new) hurdles.new befores.new aheads.new in
        InsertsIfAbsent height (block_of block.mark block.rate block.bytes) (hash_in hash)
        (whole state old) (verdict_of result.refusal) (whole result.state new) }
{
    let mut rows = RowMemory {
        heights,
        marks,
        rates,
        sizes,
    };
    let mut hashes = HashMemory {
        heights: hash_heights,
        bytes: hash_bytes,
    };
    let mut windows = WindowMemory {
        hurdles,
        befores,
        aheads,
    };
    let mut s = state;
    let outcome = s.insert_if_absent(
        height,
        block.into(),
        hash.into(),
        &mut rows,
        &mut hashes,
        &mut windows,
    );
    history_fields(outcome, s)
}

#[unsafe(no_mangle)]
pub extern "C" fn juleyomu_history_truncate_above(
    state: FeeHistory,
    height: u32,
    heights: &[u32],
    marks: &[u8],
    rates: &[u64],
    sizes: &[u64],
    hash_heights: &[u32],
    hash_bytes: &[u8],
) -> HistoryFields
    ensures { let rows = rows heights.now marks.now rates.now sizes.now in
        Truncates height rows (hashes hash_heights.now hash_bytes.now) state (verdict_of result.refusal) result.state }
{
    let rows = RowLists {
        heights,
        marks,
        rates,
        sizes,
    };
    let hashes = HashLists {
        heights: hash_heights,
        bytes: hash_bytes,
    };
    let mut s = state;
    let outcome = s.truncate_above(height, rows, hashes);
    history_fields(outcome, s)
}

#[unsafe(no_mangle)]
pub extern "C" fn juleyomu_history_rates<'a>(
    state: FeeHistory,
    heights: &[u32],
    marks: &[u8],
    rates: &[u64],
    sizes: &[u64],
    hurdles: &'a mut [u64],
    befores: &'a mut [f64],
    aheads: &'a mut [u64],
    scratch: &'a mut [u64],
    out_numbers: &'a mut [u64],
    out_marks: &'a mut [u8],
) -> HistoryFields
    ensures { AnswersRates (rows heights.now marks.now rates.now sizes.now)
        (rated state hurdles.old befores.old aheads.old) (outputs scratch.old out_numbers.old out_marks.old)
        (verdict_of result.refusal)
        (rated result.state hurdles.new befores.new aheads.new) (outputs scratch.new out_numbers.new out_marks.new) }
{
    let rows = RowLists {
        heights,
        marks,
        rates,
        sizes,
    };
    let mut windows = WindowMemory {
        hurdles,
        befores,
        aheads,
    };
    let mut out = MarkedMut {
        numbers: out_numbers,
        marks: out_marks,
    };
    let mut s = state;
    let outcome = s.rates(rows, &mut windows, scratch, &mut out);
    history_fields(outcome, s)
}

#[unsafe(no_mangle)]
pub extern "C" fn juleyomu_history_entries<'a>(
    state: FeeHistory,
    heights: &[u32],
    marks: &[u8],
    rates: &[u64],
    sizes: &[u64],
    out_heights: &'a mut [u32],
    out_marks: &'a mut [u8],
    out_rates: &'a mut [u64],
    out_sizes: &'a mut [u64],
) -> CountFields
    ensures entries { Entries state (rows heights.now marks.now rates.now sizes.now)
        (rows out_heights.old out_marks.old out_rates.old out_sizes.old)
        (rows out_heights.new out_marks.new out_rates.new out_sizes.new) (counted_of result.refusal result.count) }
    ensures count_value { result.count ≡ count_number (counted_of result.refusal result.count) }
{
    let rows = RowLists {
        heights,
        marks,
        rates,
        sizes,
    };
    let mut out = RowMemory {
        heights: out_heights,
        marks: out_marks,
        rates: out_rates,
        sizes: out_sizes,
    };
    state.entries(rows, &mut out).into()
}

#[unsafe(no_mangle)]
pub extern "C" fn juleyomu_history_recent_hashes<'a>(
    state: FeeHistory,
    heights: &[u32],
    bytes: &[u8],
    out_heights: &'a mut [u32],
    out_bytes: &'a mut [u8],
) -> CountFields
    ensures recent_hashes { RecentHashes state (hashes heights.now bytes.now)
        (hashes out_heights.old out_bytes.old) (hashes out_heights.new out_bytes.new)
        (counted_of result.refusal result.count) }
    ensures count_value { result.count ≡ count_number (counted_of result.refusal result.count) }
{
    let mut out = HashMemory {
        heights: out_heights,
        bytes: out_bytes,
    };
    state
        .recent_hashes(HashLists { heights, bytes }, &mut out)
        .into()
}
