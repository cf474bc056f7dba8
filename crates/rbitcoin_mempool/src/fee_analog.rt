// Historical fee hurdles from windows that looked like now, after fee_analog.rs.
mod history;
mod median;
mod memory;
mod nearest;
mod pairs;
mod put;
mod quantile;
mod refusals;
mod room;
mod scan;
mod window;

pub use history::AnalogHistory;
pub use median::{analog_lookback, ln_rate, lookback_part, lower_median};
pub use memory::{WindowLists, WindowMemory};
pub use nearest::analog_band;
pub use quantile::{historical_confidence_far, log_quantile};
pub use window::End;

// Lookback medians within this ratio of now count as "looked like now".
pub const ANALOG_BAND: f64 = 1.25;

// Fewest neighbors an estimate uses; below it, the nearest by lookback.
pub const ANALOG_MIN_NEIGHBORS: usize = 200;

// Pairs a target needs before it answers.
pub const ANALOG_READY_PAIRS: usize = 2000;

// Quantile for targets past one block.
pub const HISTORICAL_CONFIDENCE_FAR: f64 = 0.95;
