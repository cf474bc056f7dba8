// Order statistics, sorting, searching and moves within lent lists: what Rust's slices supplied to the fee code.
// As the definitions have it, a place out of range is answered with 0, the least of no element is the largest `u64`,
// and a run that does not fit is not moved.
#![tactic(auto)]

pub mod moves;
pub mod order;
pub mod search;
pub mod sort;
