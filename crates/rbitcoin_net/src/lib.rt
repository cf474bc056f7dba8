// The fee history of rbitcoin-net, above the estimator.
#![tactic(auto)]

pub mod fee_history;
