// The functions of the pair windows. The state passes by value. A struct has the number of a refusal, as C has no
// Result.
ghost use Rattle.std.specs.Prelude.{◌≡◌, length};
ghost use Rattle.rbitcoin_mempool.specs.Outcome.{verdict, verdict_number};
ghost use Rattle.rbitcoin_mempool.specs.Counted.{counted, counted_of};
ghost use Rattle.rbitcoin_mempool.specs.Median.{analog_lookback, ln_rate, lower_median};
ghost use Rattle.rbitcoin_mempool.specs.Nearest.{analog_band};
ghost use Rattle.rbitcoin_mempool.specs.Quantile.{historical_confidence_far, log_quantile, log_quantile_leaves};
ghost use Rattle.rbitcoin_mempool.specs.Windows.{windows, open_refusal, opened, state_refusal, pair_count};
ghost use Rattle.rbitcoin_mempool.specs.Windows.{push_refusal_of, push_back_of, push_front_of};
ghost use Rattle.rbitcoin_mempool.specs.Windows.{pop_back_of, pop_front_of, rebuild_refusal_of, rebuilt_of};
ghost use Rattle.rbitcoin_mempool.specs.Scan.{rate_sat_kvb, ScratchAfter};
ghost use Rattle.exports.specs.Fields.{Fields};
ghost use Rattle.exports.specs.Counts.{count_refusal, count_number};

use crate::rate::{RateFields, refusal_number};
use rbitcoin_mempool::answer::Refusal;
use rbitcoin_mempool::fee_analog;
use rbitcoin_mempool::fee_analog::{AnalogHistory, WindowLists, WindowMemory};

// The number of a refusal or 0, and the state.
#[repr(C)]
#[derive(Clone, Copy)]
pub struct UpdateFields {
    pub refusal: u8,
    pub state: AnalogHistory,
}

// The number of a refusal or 0, and the count or 0.
#[repr(C)]
#[derive(Clone, Copy)]
pub struct CountFields {
    pub refusal: u8,
    pub count: usize,
}

// The same elements, each by itself and not by a copy of the list, for the reason at `answered`.
pub(crate) fn one_by_one<T: Copy>(t: [T; 16]) -> [T; 16]
    ensures { result ≡ t }
{
    [
        t[0], t[1], t[2], t[3], t[4], t[5], t[6], t[7], t[8], t[9], t[10], t[11], t[12], t[13],
        t[14], t[15],
    ]
}

// The same state for an answer, where a refusal's byte and unused ones stand before it. A copy of the targets as a
// whole would take those along, read from where they are still being written: with it `pop_back` took 3.3 times the
// Rust's time.
pub(crate) fn answered(s: AnalogHistory) -> AnalogHistory
    ensures { result ≡ s }
{
    let targets = s.targets;
    AnalogHistory {
        targets: one_by_one(targets),
        tracked: s.tracked,
        capacity: s.capacity,
        start: s.start,
        count: s.count,
    }
}

// An answer, with the state by `answered`.
fn update_fields(outcome: Result<(), Refusal>, s: AnalogHistory) -> UpdateFields
    ensures refusal { result.refusal ≡ verdict_number (verdict outcome) }
    ensures state { result.state ≡ s }
{
    UpdateFields {
        refusal: refusal_number(outcome),
        state: answered(s),
    }
}

impl From<Result<usize, Refusal>> for CountFields {
    ghost from_gives = { λ a fields. let n = counted a in
        (counted_of fields.refusal fields.count ≡ n)
        × (fields.refusal ≡ count_refusal n) × (fields.count ≡ count_number n) };

    #[tactic(auto, using(crate::proofs::Verdicts::count_steps))]
    fn from(a: Result<usize, Refusal>) -> CountFields {
        match a {
            Ok(count) => CountFields { refusal: 0, count },
            Err(refusal) => CountFields {
                refusal: refusal.into(),
                count: 0,
            },
        }
    }
}

#[unsafe(no_mangle)]
pub extern "C" fn juleyomu_analog_band() -> f64
    ensures { result ≡ analog_band }
{
    fee_analog::analog_band()
}

#[unsafe(no_mangle)]
pub extern "C" fn juleyomu_historical_confidence_far() -> f64
    ensures { result ≡ historical_confidence_far }
{
    fee_analog::historical_confidence_far()
}

#[unsafe(no_mangle)]
pub extern "C" fn juleyomu_analog_lookback(n: u32) -> usize
    ensures { result ≡ analog_lookback n }
{
    fee_analog::analog_lookback(n)
}

#[unsafe(no_mangle)]
pub extern "C" fn juleyomu_ln_rate(rate: u64) -> f64
    ensures { result ≡ ln_rate rate }
{
    fee_analog::ln_rate(rate)
}

#[unsafe(no_mangle)]
pub extern "C" fn juleyomu_lower_median(values: &[u64]) -> RateFields
    ensures { Fields (lower_median values.now) result.refusal result.mark result.rate }
{
    fee_analog::lower_median(values).into()
}

#[unsafe(no_mangle)]
pub extern "C" fn juleyomu_log_quantile(outcomes: &mut [u64], confidence: f64) -> RateFields
    ensures fields { Fields (log_quantile outcomes.old confidence) result.refusal result.mark result.rate }
    ensures outcomes_after { outcomes.new ≡ log_quantile_leaves outcomes.old confidence }
{
    fee_analog::log_quantile(outcomes, confidence).into()
}

#[unsafe(no_mangle)]
#[tactic(auto, using(crate::proofs::Verdicts::unopened_if_refused))]
pub extern "C" fn juleyomu_windows_new(
    targets: &[u32],
    capacity: usize,
    hurdles: &[u64],
    befores: &[f64],
    aheads: &[u64],
) -> UpdateFields
    ensures refusal_value { result.refusal
        ≡ open_refusal targets.now capacity (length hurdles.now) (length befores.now) (length aheads.now) }
    ensures state_value { result.state
        ≡ opened targets.now capacity (length hurdles.now) (length befores.now) (length aheads.now) }
{
    let lists = WindowLists {
        hurdles,
        befores,
        aheads,
    };
    match AnalogHistory::new(targets, capacity, lists) {
        Ok(s) => update_fields(Ok(()), s),
        Err(refusal) => update_fields(Err(refusal), AnalogHistory::unopened()),
    }
}

#[unsafe(no_mangle)]
#[tactic(auto, using(crate::proofs::Verdicts::number_is))]
pub extern "C" fn juleyomu_windows_push_back<'a>(
    state: AnalogHistory,
    hurdle: u64,
    hurdles: &'a mut [u64],
    befores: &'a mut [f64],
    aheads: &'a mut [u64],
) -> UpdateFields
    ensures refusal_value { result.refusal ≡ push_refusal_of (windows state hurdles.old befores.old aheads.old) }
    ensures aheads_after { windows result.state hurdles.new befores.new aheads.new
        ≡ push_back_of hurdle (windows state hurdles.old befores.old aheads.old) }
{
    let mut memory = WindowMemory {
        hurdles,
        befores,
        aheads,
    };
    let mut s = state;
    let outcome = s.push_back(hurdle, &mut memory);
    update_fields(outcome, s)
}

#[unsafe(no_mangle)]
#[tactic(auto, using(crate::proofs::Verdicts::number_is))]
pub extern "C" fn juleyomu_windows_push_front<'a>(
    state: AnalogHistory,
    hurdle: u64,
    hurdles: &'a mut [u64],
    befores: &'a mut [f64],
    aheads: &'a mut [u64],
) -> UpdateFields
    ensures refusal_value { result.refusal ≡ push_refusal_of (windows state hurdles.old befores.old aheads.old) }
    ensures aheads_after { windows result.state hurdles.new befores.new aheads.new
        ≡ push_front_of hurdle (windows state hurdles.old befores.old aheads.old) }
{
    let mut memory = WindowMemory {
        hurdles,
        befores,
        aheads,
    };
    let mut s = state;
    let outcome = s.push_front(hurdle, &mut memory);
    update_fields(outcome, s)
}

#[unsafe(no_mangle)]
#[tactic(auto, using(crate::proofs::Verdicts::number_is))]
pub extern "C" fn juleyomu_windows_pop_back(state: AnalogHistory) -> UpdateFields
    ensures { (result.refusal ≡ state_refusal state) × (result.state ≡ pop_back_of state) }
{
    let mut s = state;
    let outcome = s.pop_back();
    update_fields(outcome, s)
}

#[unsafe(no_mangle)]
#[tactic(auto, using(crate::proofs::Verdicts::number_is))]
pub extern "C" fn juleyomu_windows_pop_front(state: AnalogHistory) -> UpdateFields
    ensures { (result.refusal ≡ state_refusal state) × (result.state ≡ pop_front_of state) }
{
    let mut s = state;
    let outcome = s.pop_front();
    update_fields(outcome, s)
}

#[unsafe(no_mangle)]
#[tactic(auto, using(crate::proofs::Verdicts::number_is))]
pub extern "C" fn juleyomu_windows_rebuild<'a>(
    state: AnalogHistory,
    from: &[u64],
    hurdles: &'a mut [u64],
    befores: &'a mut [f64],
    aheads: &'a mut [u64],
) -> UpdateFields
    ensures refusal_value { result.refusal
        ≡ rebuild_refusal_of from.now (windows state hurdles.old befores.old aheads.old) }
    ensures aheads_after { windows result.state hurdles.new befores.new aheads.new
        ≡ rebuilt_of from.now (windows state hurdles.old befores.old aheads.old) }
{
    let mut memory = WindowMemory {
        hurdles,
        befores,
        aheads,
    };
    let mut s = state;
    let outcome = s.rebuild(from, &mut memory);
    update_fields(outcome, s)
}

#[unsafe(no_mangle)]
pub extern "C" fn juleyomu_windows_pairs(state: AnalogHistory, n: u32) -> CountFields
    ensures { let pairs = counted_of (state_refusal state) (pair_count state n) in
        (result.refusal ≡ count_refusal pairs) × (result.count ≡ count_number pairs) }
{
    state.pairs(n).into()
}

#[unsafe(no_mangle)]
pub extern "C" fn juleyomu_windows_rate_sat_kvb(
    state: AnalogHistory,
    n: u32,
    confidence: f64,
    hurdles: &[u64],
    befores: &[f64],
    aheads: &[u64],
    scratch: &mut [u64],
) -> RateFields
    ensures fields { let w = windows state hurdles.now befores.now aheads.now in
        let answer = rate_sat_kvb w (length scratch.old) n confidence in
        Fields answer result.refusal result.mark result.rate }
    ensures scratch_after { let w = windows state hurdles.now befores.now aheads.now in
        ScratchAfter (rate_sat_kvb w (length scratch.old) n confidence) scratch.old scratch.new }
{
    let lists = WindowLists {
        hurdles,
        befores,
        aheads,
    };
    state.rate_sat_kvb(n, confidence, lists, scratch).into()
}
