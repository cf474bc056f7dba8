// The functions of edges and capacity. C lends each list by itself.
ghost use Rattle.std.specs.Prelude.{◌≡◌};
ghost use Rattle.rbitcoin_mempool.specs.Edges.{flow_bucket_edges, bucket_index, first_bucket_above};
ghost use Rattle.rbitcoin_mempool.specs.Capacity.{capacity_wu, horizon_secs, inflow_horizon_secs, inclusion_confidence};
ghost use Rattle.rbitcoin_mempool.specs.Capacity.{effective_capacity_wu, inflow_suffix_wu, min_rate_for_capacity};
ghost use Rattle.rbitcoin_mempool.specs.Percentile.{percentile_sat};
ghost use Rattle.exports.specs.Fields.{Fields};

use crate::rate::RateFields;
use rbitcoin_mempool::fee_est;

#[unsafe(no_mangle)]
pub extern "C" fn juleyomu_bucket_index(rate: u64) -> usize
    ensures { result ≡ bucket_index rate }
{
    fee_est::bucket_index(rate)
}

#[unsafe(no_mangle)]
pub extern "C" fn juleyomu_first_bucket_above(rate: u64) -> usize
    ensures { result ≡ first_bucket_above rate }
{
    fee_est::first_bucket_above(rate)
}

#[unsafe(no_mangle)]
pub extern "C" fn juleyomu_bucket_count() -> usize
    ensures { result ≡ 402 }
{
    fee_est::bucket_count()
}

#[unsafe(no_mangle)]
pub extern "C" fn juleyomu_capacity_wu(n: u32) -> u64
    ensures { result ≡ capacity_wu n }
{
    fee_est::capacity_wu(n)
}

#[unsafe(no_mangle)]
pub extern "C" fn juleyomu_horizon_secs(n: u32) -> u64
    ensures { result ≡ horizon_secs n }
{
    fee_est::horizon_secs(n)
}

#[unsafe(no_mangle)]
pub extern "C" fn juleyomu_inflow_horizon_secs(n: u32) -> u64
    ensures { result ≡ inflow_horizon_secs n }
{
    fee_est::inflow_horizon_secs(n)
}

#[unsafe(no_mangle)]
pub extern "C" fn juleyomu_effective_capacity_wu(n: u32) -> u64
    ensures { result ≡ effective_capacity_wu n }
{
    fee_est::effective_capacity_wu(n)
}

#[unsafe(no_mangle)]
pub extern "C" fn juleyomu_inclusion_confidence(n: u32) -> f64
    ensures { result ≡ inclusion_confidence n }
{
    fee_est::inclusion_confidence(n)
}

#[unsafe(no_mangle)]
pub extern "C" fn juleyomu_flow_bucket_edges(out: &mut [u64; 401])
    ensures { out.new ≡ flow_bucket_edges }
{
    *out = fee_est::flow_bucket_edges();
}

#[unsafe(no_mangle)]
pub extern "C" fn juleyomu_default_candidate_rates(out: &mut [u64; 401])
    ensures { out.new ≡ flow_bucket_edges }
{
    *out = fee_est::default_candidate_rates();
}

#[unsafe(no_mangle)]
pub extern "C" fn juleyomu_fine_candidate_rates(out: &mut [u64; 401])
    ensures { out.new ≡ flow_bucket_edges }
{
    *out = fee_est::fine_candidate_rates();
}

#[unsafe(no_mangle)]
pub extern "C" fn juleyomu_inflow_suffix_wu(inflow: &[u64], secs: u64, out: &mut [u64; 403])
    ensures { out.new ≡ inflow_suffix_wu inflow.now secs }
{
    *out = fee_est::inflow_suffix_wu(inflow, secs);
}

#[unsafe(no_mangle)]
pub extern "C" fn juleyomu_min_rate_for_capacity(
    candidates: &[u64],
    stock: &[u64],
    inflow: &[u64],
    n: u32,
) -> RateFields
    ensures { let a = min_rate_for_capacity candidates.now stock.now inflow.now n in
        Fields a result.refusal result.mark result.rate }
{
    fee_est::min_rate_for_capacity(candidates, stock, inflow, n).into()
}

#[unsafe(no_mangle)]
pub extern "C" fn juleyomu_percentile_sat(v: &[u64], pct: u8) -> RateFields
    ensures { Fields (percentile_sat v.now pct) result.refusal result.mark result.rate }
{
    Ok(fee_est::percentile_sat(v, pct)).into()
}
