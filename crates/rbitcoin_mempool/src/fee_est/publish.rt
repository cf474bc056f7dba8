// The loop over depths: the published rate of each, then the hold pass over all.
ghost use Rattle.std.specs.Prelude.{◌≡◌, ◌<◌, length};
ghost use Rattle.std.proofs.Math.Option.{none};
ghost use Rattle.slices.specs.Lists.{tabulate};
ghost use Rattle.rbitcoin_mempool.specs.Rates.{given, refused_with, numbers_of, marks_of};
ghost use Rattle.rbitcoin_mempool.specs.Hold.{published_at, same_lengths, input_marks};
ghost use Rattle.rbitcoin_mempool.specs.Hold.{loop_refusal, loop_numbers, loop_marks};
ghost use Rattle.rbitcoin_mempool.specs.Lists.{SameLists, Aligned, args_in};

use super::depths::{flow_for_depth, published_depth_rate};
use super::hold::{hold_all, never_descends};
use super::marked::{Marked, MarkedMut, rate_of};
use crate::answer::{Rate, Refusal};

// What the loop over depths reads: for each depth its projected, frontier and history rate; the confirm rate; and the
// warm-up share, which may be any f64.
#[derive(Clone, Copy)]
pub struct DepthLists<'a> {
    pub depths: &'a [u32],
    pub projected: Marked<'a>,
    pub frontier: Marked<'a>,
    pub history: Marked<'a>,
    pub confirm: Rate,
    pub alpha: f64,
}

impl DepthLists<'_> {
    // The published rate of the depth at i, which the loop's range bounds.
    fn published_at(&self, i: usize) -> Rate
        requires i_in_bounds { i < length self.now.depths.now }
        requires aligned { Aligned self.now }
        ensures { given result ≡ published_at (args_in self.now) i }
    {
        let n = self.depths[i];
        let projected = rate_of(self.projected.numbers[i], self.projected.marks[i]);
        let frontier = rate_of(self.frontier.numbers[i], self.frontier.marks[i]);
        let history = rate_of(self.history.numbers[i], self.history.marks[i]);
        let flow = flow_for_depth(projected, frontier, n);
        published_depth_rate(n, self.alpha, flow, frontier, history, self.confirm)
    }

    // Whether the lists are of one length, the output's too.
    #[tactic(auto, unfolding(crate::specs::Hold::same_lengths))]
    fn have_one_length(&self, out: &MarkedMut) -> bool
        ensures { result ≡ same_lengths (args_in self.now) (length out.now.numbers.now) (length out.now.marks.now) }
    {
        let n = self.depths.len();
        self.projected.have(n)
            && self.frontier.have(n)
            && self.history.have(n)
            && out.numbers.len() == n
            && out.marks.len() == n
    }

    #[tactic(auto, unfolding(crate::specs::Hold::input_marks))]
    fn have_valid_marks(&self) -> bool
        ensures { result ≡ input_marks (args_in self.now) }
    {
        self.projected.are_valid() && self.frontier.are_valid() && self.history.are_valid()
    }

    // Refuses lists that the loop cannot take, before anything is written.
    #[tactic(auto, unfolding(crate::specs::Hold::loop_refusal))]
    fn accept(&self, out: &MarkedMut) -> Result<(), Refusal>
        ensures { let numbers = length out.now.numbers.now in
            refused_with result ≡ loop_refusal (args_in self.now) numbers (length out.now.marks.now) }
    {
        if !self.have_one_length(out) {
            return Err(Refusal::Unpaired);
        }
        if !self.have_valid_marks() {
            return Err(Refusal::Mark);
        }
        if !never_descends(self.depths) {
            return Err(Refusal::Descending);
        }
        Ok(())
    }
}

// The published rate of each depth, 0 under a missing mark.
fn publish_all(lists: &DepthLists, out: &mut MarkedMut)
    requires aligned { Aligned lists.now }
    requires numbers_len { length out.old.numbers.now ≡ length lists.now.depths.now }
    requires marks_len { length out.old.marks.now ≡ length lists.now.depths.now }
    ensures numbers_after { out.new.numbers.now
        ≡ numbers_of (tabulate (published_at (args_in lists.now)) 0 (length lists.now.depths.now)) }
    ensures marks_after { out.new.marks.now
        ≡ marks_of (tabulate (published_at (args_in lists.now)) 0 (length lists.now.depths.now)) }
    ensures same_lists { SameLists out.new out.old }
{
    for i in 0..lists.depths.len() {
        let rate = lists.published_at(i);
        out.numbers[i] = rate.unwrap_or(0);
        out.marks[i] = rate.is_some() as u8;
    }
}

// The loop over depths. Refusals: 1 for lists that are not of one length, then 8 for an input mark other than
// 0 or 1, then 2 for a depth less than the one before it; the output is left as found.
#[tactic(auto, unfolding(crate::specs::Hold::loop_numbers, crate::specs::Hold::loop_marks))]
pub fn published_depth_rates(lists: &DepthLists, out: &mut MarkedMut) -> Result<(), Refusal>
    ensures result_value { refused_with result
        ≡ loop_refusal (args_in lists.now) (length out.old.numbers.now) (length out.old.marks.now) }
    ensures numbers_after { out.new.numbers.now
        ≡ loop_numbers (args_in lists.now) out.old.numbers.now out.old.marks.now }
    ensures marks_after { out.new.marks.now ≡ loop_marks (args_in lists.now) out.old.numbers.now out.old.marks.now }
    ensures same_lists { SameLists out.new out.old }
{
    lists.accept(out)?;
    publish_all(lists, out);
    hold_all(out);
    Ok(())
}
