// The fee flow meter, after fee_flow.rs: an exponential moving average of the admitted weight a
// second for each fee bucket. Time is a clock of u64 nanoseconds. The core takes and returns the
// meter by value; `fullness`, `admit_rates_wu_s` and `note_admit` store what it returns.
ghost use Rattle.std.specs.Prelude.{◌≡◌, true, false, map, length, MatchOption};
ghost use Rattle.std.specs.Float.Ieee.{le};
ghost use Rattle.num.specs.Float.{of_u64, max_of};
ghost use Rattle.rbitcoin_mempool.specs.Meter.{half_life_secs, flow_full_wu, least_secs, gap, share_left, decayed};
ghost use Rattle.rbitcoin_mempool.specs.Meter.{new_meter, decay_to, full, fullness, rates, admit_rates_wu_s};
ghost use Rattle.rbitcoin_mempool.specs.Meter.{note_admit};

use crate::fee_est::{BLOCK_WEIGHT_WU, SECONDS_PER_BLOCK, bucket_index};

// std::f64::consts::LN_2.
const LN_2: f64 = 0.6931471805599453;

// The least time that a sample is taken over (seconds).
const LEAST_SECS: f64 = 0.001;

#[repr(C)]
#[derive(Clone, Copy)]
pub struct FeeFlowMeter {
    pub admit_wu_s: [f64; 402],
    // Decayed admitted weight (WU).
    pub admitted_wu: f64,
    // Decay clock. Reads move it too.
    pub last: u64,
    // Previous admission. The sample is weight over the gap since this one.
    last_admit: u64,
}

// The half-life in seconds.
pub fn admit_half_life_secs() -> f64
    ensures { result ≡ half_life_secs }
{
    FeeFlowMeter::ADMIT_HALF_LIFE_SECS
}

// The full weight in WU, as the Rust names it.
pub fn flow_full_wu() -> f64
    ensures { result ≡ flow_full_wu }
{
    FeeFlowMeter::FLOW_FULL_WU
}

// The seconds from one clock to another, 0 where the second is the earlier.
fn secs_between(from: u64, to: u64) -> f64
    ensures { result ≡ gap from to }
{
    let ns = to.saturating_sub(from);
    let whole = num::float::from_u64(ns / 1_000_000_000);
    whole + num::float::from_u64(ns % 1_000_000_000) / 1_000_000_000.0
}

// The share of a rate that is left after a time.
fn share_left(dt: f64) -> f64
    ensures { result ≡ share_left dt }
{
    num::exp::exp(-LN_2 * dt / FeeFlowMeter::ADMIT_HALF_LIFE_SECS)
}

// A time above 0 that has gone by since a clock, and the share of a rate that it leaves.
#[derive(Clone, Copy)]
struct Lapse {
    secs: f64,
    share: f64,
    ghost above: { le secs (of_u64 0) ≡ false },
    ghost left: { share ≡ share_left secs },
}

impl Lapse {
    // None where the time is not above 0.
    fn since(last: u64, now: u64) -> Option<Lapse>
        ensures { MatchOption result (le (gap last now) (of_u64 0) ≡ true) (λ lapse. lapse.secs ≡ gap last now) }
    {
        let secs = secs_between(last, now);
        if secs <= 0.0 {
            return None;
        }
        Some(Lapse {
            secs,
            share: share_left(secs),
        })
    }

    // The same, where the share since the last admission is at hand. It is taken where the clocks are the same and the
    // gap is at least a millisecond: then the times are too.
    fn since_with(last: u64, last_admit: u64, now: u64, dt: f64, share: f64) -> Option<Lapse>
        requires { (dt ≡ max_of (gap last_admit now) least_secs) × (share ≡ share_left dt) }
        ensures { MatchOption result (le (gap last now) (of_u64 0) ≡ true) (λ lapse. lapse.secs ≡ gap last now) }
    {
        let secs = secs_between(last, now);
        if last == last_admit && secs >= LEAST_SECS {
            return Some(Lapse { secs, share });
        }
        Lapse::since(last, now)
    }

    // A total after it.
    fn total(self, total: f64) -> f64
        ensures { result ≡ decayed self.secs total }
    {
        total * self.share
    }

    // Each rate after it, in place.
    fn decay(self, rates: &mut [f64; 402])
        requires { length rates.old ≡ 402 }
        ensures { rates.new ≡ map (decayed self.secs) rates.old }
    {
        for rate in rates.iter_mut() {
            *rate *= self.share;
        }
    }
}

impl FeeFlowMeter {
    // Half-life of the moving average (seconds). The fullness uses the same.
    pub const ADMIT_HALF_LIFE_SECS: f64 = 150.0;

    // The weight that a full block every 10 minutes leaves in the memory of that half-life.
    pub const FLOW_FULL_WU: f64 = (BLOCK_WEIGHT_WU as f64 / SECONDS_PER_BLOCK as f64)
        * (FeeFlowMeter::ADMIT_HALF_LIFE_SECS / LN_2);

    pub fn new(now: u64) -> Self
        ensures { result ≡ new_meter now }
    {
        Self {
            admit_wu_s: [0.0; 402],
            admitted_wu: 0.0,
            last: now,
            last_admit: now,
        }
    }

    // The meter at a later time. Nothing changes unless the time has gone on.
    #[tactic(auto, unfolding(crate::specs::Meter::decay_to))]
    pub fn decay_to(self, now: u64) -> Self
        ensures { result ≡ decay_to self now }
    {
        let mut m = self;
        if let Some(lapse) = Lapse::since(m.last, now) {
            lapse.decay(&mut m.admit_wu_s);
            m.admitted_wu = lapse.total(m.admitted_wu);
            m.last = now;
        }
        m
    }

    // The fullness of the meter as it stands.
    pub fn full(self) -> f64
        ensures { result ≡ full self }
    {
        num::float::clamp(self.admitted_wu / flow_full_wu(), 0.0, 1.0)
    }

    // The rates of the meter as it stands, as whole numbers. The array's `map` took over three times as long.
    pub fn rates(self) -> [u64; 402]
        ensures { result ≡ rates self }
    {
        let mut rates = [0u64; 402];
        for i in 0..402 {
            rates[i] = num::float::round_to_u64(num::float::max(self.admit_wu_s[i], 0.0));
        }
        rates
    }

    // The meter after an admission.
    pub fn admit(self, weight_wu: u64, rate_sat_per_kvb: u64, now: u64) -> Self
        ensures { result ≡ note_admit self weight_wu rate_sat_per_kvb now }
    {
        let i = bucket_index(rate_sat_per_kvb);
        let weight = num::float::from_u64(weight_wu);
        let dt = num::float::max(secs_between(self.last_admit, now), LEAST_SECS);
        let kept_dt = share_left(dt);
        let added = weight / dt * (1.0 - kept_dt);
        let mut m = self;
        if let Some(lapse) = Lapse::since_with(m.last, m.last_admit, now, dt, kept_dt) {
            lapse.decay(&mut m.admit_wu_s);
            m.admitted_wu = lapse.total(m.admitted_wu);
            m.last = now;
        }
        m.admit_wu_s[i] += added;
        m.admitted_wu += weight;
        m.last_admit = now;
        m
    }

    // Fullness, from 0 to 1, at a time that the meter is decayed to. Starts at 0.
    pub fn fullness(&mut self, now: u64) -> f64
        ensures { (self.new ≡ decay_to self.old now) × (result ≡ fullness self.old now) }
    {
        let next = (*self).decay_to(now);
        *self = next;
        (*self).full()
    }

    // The rates (WU/s) of all buckets at a time that the meter is decayed to.
    pub fn admit_rates_wu_s(&mut self, now: u64) -> [u64; 402]
        ensures { (self.new ≡ decay_to self.old now) × (result ≡ admit_rates_wu_s self.old now) }
    {
        *self = self.decay_to(now);
        self.rates()
    }

    // An admission of a weight at a rate.
    pub fn note_admit(&mut self, weight_wu: u64, rate_sat_per_kvb: u64, now: u64)
        ensures { self.new ≡ note_admit self.old weight_wu rate_sat_per_kvb now }
    {
        *self = self.admit(weight_wu, rate_sat_per_kvb, now);
    }
}
