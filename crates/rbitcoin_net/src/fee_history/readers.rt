// What `rates` and `entries` write to the caller's lists.
ghost use Rattle.std.specs.Prelude.{◌≡◌, ◌++◌, ◌+◌, ◌≤◌, length, drop};
ghost use Rattle.slices.specs.Lists.{tabulate};
ghost use Rattle.rbitcoin_mempool.specs.Lists.{SameLists};
ghost use Rattle.rbitcoin_mempool.specs.Rates.{rate_at, numbers_of, marks_of};

use rbitcoin_mempool::fee_est::{Marked, MarkedMut, rate_of};

// n rates from a place on, at the front of the output: the number and 1, or 0 and 0 where it is missing.
#[tactic(auto, using(crate::proofs::Tables::table_done))]
pub(crate) fn put_rates(out: &mut MarkedMut, held: Marked, start: usize, n: usize)
    requires held { (start + n ≤ length held.numbers.now) × (start + n ≤ length held.marks.now) }
    requires fits { (n ≤ length out.old.numbers.now) × (n ≤ length out.old.marks.now) }
    ensures numbers { let rates = tabulate (rate_at held.entry.numbers.now held.entry.marks.now) start n in
        out.new.numbers.now ≡ numbers_of rates ++ drop n out.old.numbers.now }
    ensures marks { let rates = tabulate (rate_at held.entry.numbers.now held.entry.marks.now) start n in
        out.new.marks.now ≡ marks_of rates ++ drop n out.old.marks.now }
    ensures lent { SameLists out.old out.new }
{
    for i in 0..n {
        let at = start + i;
        let rate = rate_of(held.numbers[at], held.marks[at]);
        out.numbers[i] = rate.unwrap_or(0);
        out.marks[i] = rate.is_some() as u8;
    }
}
