// The fee flow meter.
ghost use Rattle.std.specs.Prelude.{◌≡◌};
ghost use Rattle.rbitcoin_mempool.specs.Meter.{half_life_secs, flow_full_wu, new_meter, decay_to, fullness};
ghost use Rattle.rbitcoin_mempool.specs.Meter.{admit_rates_wu_s, note_admit};

use rbitcoin_mempool::fee_flow;
use rbitcoin_mempool::fee_flow::FeeFlowMeter;

// The rates of all buckets (WU/s). C returns an array in a struct alone.
#[repr(C)]
#[derive(Clone, Copy)]
pub struct AdmitRates {
    pub wu_s: [u64; 402],
}

#[unsafe(no_mangle)]
pub extern "C" fn juleyomu_admit_half_life_secs() -> f64
    ensures { result ≡ half_life_secs }
{
    fee_flow::admit_half_life_secs()
}

#[unsafe(no_mangle)]
pub extern "C" fn juleyomu_flow_full_wu() -> f64
    ensures { result ≡ flow_full_wu }
{
    fee_flow::flow_full_wu()
}

#[unsafe(no_mangle)]
pub extern "C" fn juleyomu_fee_flow_meter(now: u64) -> FeeFlowMeter
    ensures { result ≡ new_meter now }
{
    FeeFlowMeter::new(now)
}

#[unsafe(no_mangle)]
pub extern "C" fn juleyomu_fullness(m: &mut FeeFlowMeter, t: u64) -> f64
    ensures { (m.new ≡ decay_to m.old t) × (result ≡ fullness m.old t) }
{
    m.fullness(t)
}

#[unsafe(no_mangle)]
pub extern "C" fn juleyomu_admit_rates_wu_s(m: &mut FeeFlowMeter, t: u64) -> AdmitRates
    ensures { (m.new ≡ decay_to m.old t) × (result.wu_s ≡ admit_rates_wu_s m.old t) }
{
    AdmitRates {
        wu_s: m.admit_rates_wu_s(t),
    }
}

#[unsafe(no_mangle)]
pub extern "C" fn juleyomu_note_admit(m: &mut FeeFlowMeter, weight_wu: u64, rate: u64, t: u64)
    ensures { m.new ≡ note_admit m.old weight_wu rate t }
{
    m.note_admit(weight_wu, rate, t)
}
