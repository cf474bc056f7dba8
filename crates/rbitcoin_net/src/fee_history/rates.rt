// What `rates` is made of.
ghost use Rattle.std.specs.Prelude.{true, ◌≡◌, List, ◌++◌, ℕ, ◌+◌, ◌≤◌, ◌<◌, length, drop};
ghost use Rattle.std.proofs.Math.Option.{none};
ghost use Rattle.slices.specs.Lists.{tabulate};
ghost use Rattle.rbitcoin_mempool.specs.Memory.{windows_of, windows_seen, SameLent};
ghost use Rattle.rbitcoin_mempool.specs.Rates.{number_of, mark_of, numbers_of, marks_of};
ghost use Rattle.rbitcoin_mempool.specs.Windows.{push_all};
ghost use Rattle.rbitcoin_net.specs.History.{confidence_of, hurdles_of};
ghost use Rattle.rbitcoin_net.specs.Inserts.{with_windows};
ghost use Rattle.rbitcoin_net.specs.Lent.{row_at, held_rows, Reach};
ghost use Rattle.rbitcoin_net.specs.Memory.{rows_seen, rated_of};
ghost use Rattle.rbitcoin_net.specs.Rates.{refreshed, refreshed_in, rate_from, slots, rates_in, answers_in};

use super::FeeHistory;
use super::inserts::push_rate;
use super::memory::RowLists;
use rbitcoin_mempool::fee_analog::{
    AnalogHistory, End, WindowLists, WindowMemory, historical_confidence_far,
};
use rbitcoin_mempool::fee_est::{CONFIDENCE_NEAR, MarkedMut};

// The tracked targets' rates, numbers and marks as the state keeps them; the places past them are 0.
#[derive(Clone, Copy)]
pub(crate) struct RateSlots {
    pub(crate) numbers: [u64; 16],
    pub(crate) marks: [u8; 16],
}

// 0.999 up to N = 1 and 0.95 farther out. The estimator's `inclusion_confidence` differs in a constant: with one
// function of it, these two would still stand, to hand it over.
#[tactic(auto, using(std::proofs::lemmas::Bool::Decides::nat_tests), unfolding(crate::specs::History::confidence_of))]
fn confidence_for(n: u32) -> f64
    ensures { result ≡ confidence_of n }
{
    if n <= 1 {
        CONFIDENCE_NEAR
    } else {
        historical_confidence_far()
    }
}

// The rates of the tracked targets. That they are at most 16 is asked here, and is no ghost field of the state: any
// state comes from C.
#[tactic(auto, using(crate::proofs::Steps::slotting))]
fn rate_slots(analog: &AnalogHistory, lists: WindowLists, scratch: &mut [u64]) -> RateSlots
    requires { analog.now.tracked ≤ 16 }
    ensures numbers { let w = windows_seen analog.now lists.entry in
        result.numbers ≡ slots analog.now.tracked (λ d. number_of (rate_from w (length scratch.old) d)) }
    ensures marks { let w = windows_seen analog.now lists.entry in
        result.marks ≡ slots analog.now.tracked (λ d. mark_of (rate_from w (length scratch.old) d)) }
    ensures scratch { let w = windows_seen analog.now lists.entry in
        ((d : ℕ) → d < analog.now.tracked → rate_from w (length scratch.old) d ≡ none)
        → scratch.new ≡ scratch.old }
{
    let mut numbers = [0u64; 16];
    let mut marks = [0u8; 16];
    let mut out = MarkedMut {
        numbers: &mut numbers,
        marks: &mut marks,
    };
    for d in 0..analog.tracked {
        let n = analog.targets[d];
        let answer = analog.rate_sat_kvb(n, confidence_for(n), lists, scratch);
        out.put(d, answer.unwrap_or(None));
    }
    RateSlots { numbers, marks }
}

// The rates of n rows from a place on, oldest first, pushed behind.
fn push_rows(
    analog: &mut AnalogHistory,
    start: usize,
    n: usize,
    rows: RowLists,
    windows: &mut WindowMemory,
)
    requires { let m = rows in
        (start + n ≤ length m.marks.now) × (start + n ≤ length m.rates.now) }
    ensures pushed { let hurdles = hurdles_of (tabulate (row_at (rows_seen rows.entry)) start n) in
        windows_of analog.new windows.new ≡ push_all hurdles (windows_of analog.old windows.old) }
    ensures lent { SameLent windows.old windows.new }
{
    let held = rows.marked();
    for at in start..start + n {
        push_rate(analog, End::Newest, held.rate_at(at), windows);
    }
}

impl FeeHistory {
    // The windows, rebuilt from the rows where they are stale.
    #[tactic(auto, unfolding(crate::specs::Rates::refreshed, crate::specs::Lent::held_rows))]
    fn refresh(&mut self, rows: RowLists, windows: &mut WindowMemory)
        requires { Reach self.old (rows_seen rows) }
        ensures refreshed { let s = self.old in
            windows_of self.new.analog windows.new
            ≡ refreshed s.analog_stale (held_rows (rows_seen rows.entry) s) (windows_of s.analog windows.old) }
        ensures state { self.new ≡ with_windows self.new.analog self.old.analog_stale self.old }
        ensures lent { SameLent windows.old windows.new }
    {
        if self.analog_stale {
            self.analog.start = 0;
            self.analog.count = 0;
            push_rows(&mut self.analog, self.start, self.count, rows, windows);
        }
    }

    // The kept rates, or where there are none the rates of windows that are not stale, kept then.
    pub(crate) fn keep_rates(
        &mut self,
        rows: RowLists,
        windows: &mut WindowMemory,
        scratch: &mut [u64],
    )
        requires tracked { self.old.analog.tracked ≤ 16 }
        requires reach { Reach self.old (rows_seen rows) }
        ensures rates { rated_of self.new windows.new
            ≡ rates_in (length scratch.old) (rows_seen rows.entry) (rated_of self.old windows.old) }
        ensures lent { SameLent windows.old windows.new }
        ensures scratch_unchanged { self.old.kept ≡ true → scratch.new ≡ scratch.old }
        ensures scratch_unread { let w = refreshed_in (rows_seen rows.entry) (rated_of self.old windows.old) in
            ((d : ℕ) → d < self.old.analog.tracked → rate_from w (length scratch.old) d ≡ none)
            → scratch.new ≡ scratch.old }
    {
        if self.kept {
            return;
        }
        self.refresh(rows, windows);
        let found = rate_slots(&self.analog, windows.lists(), scratch);
        let numbers = found.numbers;
        let marks = found.marks;
        self.analog_stale = false;
        self.kept_numbers = numbers;
        self.kept_marks = marks;
        self.kept = true;
    }
}
