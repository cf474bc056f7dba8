// Rates that may be missing, as numbers with marks.
ghost use Rattle.std.specs.Prelude.{◌≡◌, ◌≤◌, true, length, take, slice_set, IfOk};
ghost use Rattle.rbitcoin_mempool.specs.Rates.{given, refused_with, marked, rate_at, marks_valid, number_of, mark_of};
ghost use Rattle.rbitcoin_mempool.specs.Hold.{both_have, hold_refusal};
ghost use Rattle.rbitcoin_mempool.specs.Lists.{SameLists, rates_in};
ghost use Rattle.rbitcoin_mempool.specs.Target.{last_there};

use crate::answer::{Rate, Refusal};

// A rate is there under the mark 1 and missing under 0. What stands under a 0 is not read. Marks, and no list of
// `Option`s: C lends them so, and may lend lists of two lengths, so that contracts say which are of one.
#[derive(Clone, Copy)]
pub struct Marked<'a> {
    pub numbers: &'a [u64],
    pub marks: &'a [u8],
}

// The same, to write: another type, since a view to read is copied and one to write cannot be.
#[derive(Drop)]
pub struct MarkedMut<'a> {
    pub numbers: &'a mut [u64],
    pub marks: &'a mut [u8],
}

// The rate of a number with its mark.
pub fn rate_of(number: u64, mark: u8) -> Rate
    ensures { given result ≡ marked number mark }
{
    if mark == 1 { Some(number) } else { None }
}

impl Marked<'_> {
    // Whether both lists have n elements.
    pub(crate) fn have(&self, n: usize) -> bool
        ensures { result ≡ both_have self.now.numbers.now self.now.marks.now n }
    {
        self.numbers.len() == n && self.marks.len() == n
    }

    // Whether each mark is 0 or 1. Every mark is tested, with no early exit, so that the compiler can test many at
    // once: `all` took six times as long of a list of 64.
    #[tactic(auto, unfolding(crate::specs::Rates::marks_valid, slices::specs::Every::every))]
    pub(crate) fn are_valid(&self) -> bool
        ensures { result ≡ marks_valid self.now.marks.now }
    {
        let mut valid = true;
        for mark in self.marks {
            valid &= *mark <= 1;
        }
        valid
    }

    // Refuses lists of unequal length, then a mark other than 0 or 1.
    #[tactic(auto, unfolding(crate::specs::Hold::hold_refusal))]
    pub(crate) fn accept(&self) -> Result<(), Refusal>
        ensures refusal { refused_with result ≡ hold_refusal self.now.numbers.now self.now.marks.now }
        ensures same_length { IfOk result (λ _. length self.now.numbers.now ≡ length self.now.marks.now) }
        ensures valid { IfOk result (λ _. marks_valid self.now.marks.now ≡ true) }
    {
        if self.numbers.len() != self.marks.len() {
            return Err(Refusal::Unpaired);
        }
        if !self.are_valid() {
            return Err(Refusal::Mark);
        }
        Ok(())
    }

    // The rate at a place. A number or a mark that a list does not have is 0, as in the definition: so past the marks
    // there is no rate. The loops that write a list of rates read by index and `rate_of`: the tests cost them time.
    pub fn rate_at(&self, i: usize) -> Rate
        ensures { given result ≡ rate_at self.now.numbers.now self.now.marks.now i }
    {
        let number = self.numbers.get(i).copied().unwrap_or(0);
        let mark = self.marks.get(i).copied().unwrap_or(0);
        rate_of(number, mark)
    }

    // The last rate that is there among the first n.
    pub(crate) fn last_there(&self, n: usize) -> Rate
        requires n_in_bounds { n ≤ length self.now.numbers.now }
        requires same_length { length self.now.numbers.now ≡ length self.now.marks.now }
        ensures { given result ≡ last_there (take n (rates_in self.now)) }
    {
        for i in (0..n).rev() {
            if self.marks[i] == 1 {
                return Some(self.numbers[i]);
            }
        }
        None
    }
}

impl MarkedMut<'_> {
    // The lists to read, by the name that Rust gives such a view.
    pub fn as_marked(&self) -> Marked<'_>
        ensures numbers { result.numbers.now ≡ self.now.numbers.now }
        ensures marks { result.marks.now ≡ self.now.marks.now }
    {
        Marked {
            numbers: &*self.numbers,
            marks: &*self.marks,
        }
    }

    // Writes the rate at a place, in each list that has it: the number and 1, or 0 and 0 where it is missing.
    pub fn put(&mut self, i: usize, rate: Rate)
        ensures numbers_after { self.new.numbers.now ≡ slice_set self.old.numbers.now i (number_of (given rate)) }
        ensures marks_after { self.new.marks.now ≡ slice_set self.old.marks.now i (mark_of (given rate)) }
        ensures same_lists { SameLists self.new self.old }
    {
        if i < self.numbers.len() {
            self.numbers[i] = rate.unwrap_or(0);
        }
        if i < self.marks.len() {
            self.marks[i] = rate.is_some() as u8;
        }
    }
}
