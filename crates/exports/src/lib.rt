// The functions under names that C and Rust can link, with the prefix `juleyomu_`. Each hands its
// arguments on and promises the answer and the lent lists that the function behind it promises. A
// slice passes as a pointer and a length, an array as a pointer.
#![tactic(auto)]

pub mod capacity;
pub mod depths;
pub mod history;
pub mod meter;
pub mod numbers;
pub mod rate;
pub mod windows;
