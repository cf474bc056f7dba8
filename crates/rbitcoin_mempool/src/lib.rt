// The fee estimator of rbitcoin-mempool.
#![tactic(auto)]

pub mod answer;
pub mod fee_analog;
pub mod fee_est;
pub mod fee_flow;
