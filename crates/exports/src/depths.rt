// The functions of depth rates and targets. C lends numbers and marks as lists of their own.
ghost use Rattle.std.specs.Prelude.{◌≡◌, length};
ghost use Rattle.rbitcoin_mempool.specs.Rates.{given, number_of};
ghost use Rattle.rbitcoin_mempool.specs.Depths.{blend_weight, flow_for_depth, blend_sat_kvb, warmup_blend};
ghost use Rattle.rbitcoin_mempool.specs.Depths.{depth_rate_sat_kvb, published_depth_rate};
ghost use Rattle.rbitcoin_mempool.specs.Hold.{enforce_monotone_desc, hold_refusal, held_numbers, held_marks};
ghost use Rattle.rbitcoin_mempool.specs.Hold.{args_of, loop_refusal, loop_numbers, loop_marks};
ghost use Rattle.rbitcoin_mempool.specs.Target.{lerp_sat_kvb, fee_at_target_sat_kvb};
ghost use Rattle.exports.specs.Fields.{Fields};
ghost use Rattle.exports.specs.Marks.{Marks, rate_in};

use crate::rate::{RateFields, refusal_number};
use rbitcoin_mempool::answer::Rate;
use rbitcoin_mempool::fee_est;
use rbitcoin_mempool::fee_est::{DepthLists, Marked, MarkedMut};

// A rate that may be missing, for C, which has no Option: the mark 1 and its number where it is there. As an
// argument it is missing under any other mark; as a result it is then 0 and 0.
#[repr(C)]
#[derive(Clone, Copy)]
pub struct MarkedRate {
    pub mark: u8,
    pub rate: u64,
}

impl From<MarkedRate> for Rate {
    ghost from_gives = { λ m rate. given rate ≡ rate_in m };

    fn from(m: MarkedRate) -> Rate {
        (m.mark == 1).then_some(m.rate)
    }
}

impl From<Rate> for MarkedRate {
    ghost from_gives = { λ rate m. Marks (given rate) m };

    fn from(rate: Rate) -> MarkedRate {
        match rate {
            Some(rate) => MarkedRate { mark: 1, rate },
            None => MarkedRate { mark: 0, rate: 0 },
        }
    }
}

#[unsafe(no_mangle)]
pub extern "C" fn juleyomu_blend_weight(n: u32) -> f64
    ensures { result ≡ blend_weight n }
{
    fee_est::blend_weight(n)
}

#[unsafe(no_mangle)]
pub extern "C" fn juleyomu_flow_for_depth(
    projected: MarkedRate,
    frontier: MarkedRate,
    n: u32,
) -> MarkedRate
    ensures { Marks (flow_for_depth (rate_in projected) (rate_in frontier) n) result }
{
    fee_est::flow_for_depth(projected.into(), frontier.into(), n).into()
}

#[unsafe(no_mangle)]
pub extern "C" fn juleyomu_blend_sat_kvb(flow: MarkedRate, hist: MarkedRate, n: u32) -> MarkedRate
    ensures { Marks (blend_sat_kvb (rate_in flow) (rate_in hist) n) result }
{
    fee_est::blend_sat_kvb(flow.into(), hist.into(), n).into()
}

#[unsafe(no_mangle)]
pub extern "C" fn juleyomu_warmup_blend(
    alpha: f64,
    cold: MarkedRate,
    warm: MarkedRate,
) -> MarkedRate
    ensures { Marks (warmup_blend alpha (rate_in cold) (rate_in warm)) result }
{
    fee_est::warmup_blend(alpha, cold.into(), warm.into()).into()
}

// The warm and the cold case by calls of their own, so that the compiler keeps what each needs alone.
#[unsafe(no_mangle)]
pub extern "C" fn juleyomu_depth_rate_sat_kvb(
    n: u32,
    flow_warm: bool,
    flow: MarkedRate,
    frontier: MarkedRate,
    hist: MarkedRate,
) -> MarkedRate
    ensures { Marks (depth_rate_sat_kvb n flow_warm (rate_in flow) (rate_in frontier) (rate_in hist)) result }
{
    let f: Rate = flow.into();
    let r: Rate = frontier.into();
    let h: Rate = hist.into();
    if flow_warm {
        return fee_est::depth_rate_sat_kvb(n, true, f, r, h).into();
    }
    fee_est::depth_rate_sat_kvb(n, false, f, r, h).into()
}

#[unsafe(no_mangle)]
pub extern "C" fn juleyomu_published_depth_rate(
    n: u32,
    alpha: f64,
    flow: MarkedRate,
    frontier: MarkedRate,
    hist: MarkedRate,
    confirm: MarkedRate,
) -> MarkedRate
    ensures { let of_rest = published_depth_rate n alpha (rate_in flow) (rate_in frontier) in
        Marks (of_rest (rate_in hist) (rate_in confirm)) result }
{
    fee_est::published_depth_rate(
        n,
        alpha,
        flow.into(),
        frontier.into(),
        hist.into(),
        confirm.into(),
    )
    .into()
}

#[unsafe(no_mangle)]
pub extern "C" fn juleyomu_enforce_monotone_desc(rates: &mut [u64])
    ensures { rates.new ≡ enforce_monotone_desc rates.old }
{
    fee_est::enforce_monotone_desc(rates)
}

#[unsafe(no_mangle)]
pub extern "C" fn juleyomu_hold_defined_then_monotone(rates: &mut [u64], marks: &mut [u8]) -> u8
    ensures value { result ≡ number_of (hold_refusal rates.old marks.old) }
    ensures rates_after { rates.new ≡ held_numbers rates.old marks.old }
    ensures marks_after { marks.new ≡ held_marks rates.old marks.old }
{
    let mut held = MarkedMut {
        numbers: rates,
        marks,
    };
    refusal_number(fee_est::hold_defined_then_monotone(&mut held))
}

#[unsafe(no_mangle)]
pub extern "C" fn juleyomu_published_depth_rates(
    depths: &[u32],
    projected: &[u64],
    projected_marks: &[u8],
    frontier: &[u64],
    frontier_marks: &[u8],
    history: &[u64],
    history_marks: &[u8],
    confirm: MarkedRate,
    alpha: f64,
    out: &mut [u64],
    out_marks: &mut [u8],
) -> u8
    ensures value { let a = args_of depths.now projected.now projected_marks.now
        frontier.now frontier_marks.now history.now history_marks.now (rate_in confirm) alpha in
        result ≡ number_of (loop_refusal a (length out.old) (length out_marks.old)) }
    ensures out_after { let a = args_of depths.now projected.now projected_marks.now
        frontier.now frontier_marks.now history.now history_marks.now (rate_in confirm) alpha in
        out.new ≡ loop_numbers a out.old out_marks.old }
    ensures out_marks_after { let a = args_of depths.now projected.now projected_marks.now
        frontier.now frontier_marks.now history.now history_marks.now (rate_in confirm) alpha in
        out_marks.new ≡ loop_marks a out.old out_marks.old }
{
    let lists = DepthLists {
        depths,
        projected: Marked {
            numbers: projected,
            marks: projected_marks,
        },
        frontier: Marked {
            numbers: frontier,
            marks: frontier_marks,
        },
        history: Marked {
            numbers: history,
            marks: history_marks,
        },
        confirm: confirm.into(),
        alpha,
    };
    let mut published = MarkedMut {
        numbers: out,
        marks: out_marks,
    };
    refusal_number(fee_est::published_depth_rates(&lists, &mut published))
}

#[unsafe(no_mangle)]
pub extern "C" fn juleyomu_lerp_sat_kvb(d0: u32, left: u64, d1: u32, right: u64, target: u32) -> u64
    ensures { result ≡ lerp_sat_kvb d0 left d1 right target }
{
    fee_est::lerp_sat_kvb(d0, left, d1, right, target)
}

#[unsafe(no_mangle)]
pub extern "C" fn juleyomu_fee_at_target_sat_kvb(
    depths: &[u32],
    rates: &[u64],
    marks: &[u8],
    target: u32,
) -> RateFields
    ensures { let a = fee_at_target_sat_kvb depths.now rates.now marks.now target in
        Fields a result.refusal result.mark result.rate }
{
    let rates = Marked {
        numbers: rates,
        marks,
    };
    fee_est::fee_at_target_sat_kvb(depths, rates, target).into()
}
