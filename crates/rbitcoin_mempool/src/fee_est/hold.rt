// The hold pass over rates in list order: a hole after the first defined rate takes the last one,
// and no rate is above the one before it.
ghost use Rattle.std.specs.Prelude.{◌≡◌, true, length};
ghost use Rattle.rbitcoin_mempool.specs.Rates.{refused_with, rates_of, marks_valid, marks_of, numbers_over};
ghost use Rattle.rbitcoin_mempool.specs.Hold.{enforce_monotone_desc, hold_defined_then_monotone, never_descends};
ghost use Rattle.rbitcoin_mempool.specs.Hold.{hold_refusal, held_numbers, held_marks};
ghost use Rattle.rbitcoin_mempool.specs.Lists.{SameLists};

use super::marked::MarkedMut;
use crate::answer::{Rate, Refusal, lesser_of};

// Whether no depth is less than the one before it. Every pair is tested, with no early exit, so that the compiler can
// test many at once.
#[tactic(auto, unfolding(crate::specs::Hold::never_descends, slices::specs::Every::every))]
pub(crate) fn never_descends(depths: &[u32]) -> bool
    ensures { result ≡ never_descends depths.now }
{
    let mut keeps = true;
    for pair in depths.windows(2) {
        keeps &= pair[0] <= pair[1];
    }
    keeps
}

// R(1) >= R(2) >= .. in place. By the iterator, with the least so far kept beside it, it took 1.15 times as long.
pub fn enforce_monotone_desc(rates: &mut [u64])
    ensures { rates.new ≡ enforce_monotone_desc rates.old }
{
    for i in 1..rates.len() {
        rates[i] = rates[i].min(rates[i - 1]);
    }
}

// Holds and lowers in one pass: each rate is the least so far.
pub(crate) fn hold_all(rates: &mut MarkedMut)
    requires numbers_len { length rates.old.numbers.now ≡ length rates.old.marks.now }
    requires marks_value { marks_valid rates.old.marks.now ≡ true }
    ensures numbers_after { let numbers = rates.old.numbers.now in
        let held = hold_defined_then_monotone (rates_of numbers rates.old.marks.now) in
        rates.new.numbers.now ≡ numbers_over numbers held }
    ensures marks_after { let held = hold_defined_then_monotone (rates_of rates.old.numbers.now rates.old.marks.now) in
        rates.new.marks.now ≡ marks_of held }
    ensures same_lists { SameLists rates.new rates.old }
{
    let mut least: Rate = None;
    for i in 0..rates.numbers.len() {
        least = lesser_of(least, rates.as_marked().rate_at(i));
        if let Some(x) = least {
            rates.numbers[i] = x;
            rates.marks[i] = 1;
        }
    }
}

// The hold pass over numbers with marks. Refusals: 1 for lists of unequal length, then 8 for a mark other than 0 or 1;
// the lists are left as found. What stands under a mark that stays 0 is left.
#[tactic(auto, unfolding(crate::specs::Hold::held_numbers, crate::specs::Hold::held_marks))]
pub fn hold_defined_then_monotone(rates: &mut MarkedMut) -> Result<(), Refusal>
    ensures result_value { refused_with result ≡ hold_refusal rates.old.numbers.now rates.old.marks.now }
    ensures numbers_after { rates.new.numbers.now ≡ held_numbers rates.old.numbers.now rates.old.marks.now }
    ensures marks_after { rates.new.marks.now ≡ held_marks rates.old.numbers.now rates.old.marks.now }
    ensures same_lists { SameLists rates.new rates.old }
{
    rates.as_marked().accept()?;
    hold_all(rates);
    Ok(())
}
