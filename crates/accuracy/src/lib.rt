// Demand 3 as one contract: the loop over depths, then the lookup of a target with the
// same depths and the output list as the loop left it. It sees the estimator's contracts alone.
#![tactic(auto)]

ghost use Rattle.std.specs.Prelude.{ℕ, ◌^◌, ◌<◌, length, slice_index};
ghost use Rattle.rbitcoin_mempool.specs.Answer.{answer};
ghost use Rattle.rbitcoin_mempool.specs.Lists.{SameLists, args_in};
ghost use Rattle.accuracy.specs.Quoted.{Quoted};

use rbitcoin_mempool::answer::{Rate, Refusal};
use rbitcoin_mempool::fee_est::{
    DepthLists, MarkedMut, fee_at_target_sat_kvb, published_depth_rates,
};

// What the type of the depths says.
fn depths_fit(depths: &[u32])
    ensures { (i : ℕ) → i < length depths.now → slice_index depths.now i < 2 ^ 32 }
{}

// The quote of a target, with the output list that every other target is looked up in. A refusal is
// the loop's, and leaves the output as found.
pub fn quote(lists: &DepthLists, out: &mut MarkedMut, target: u32) -> Result<Rate, Refusal>
    ensures quoted { let numbers = out.new.numbers.now in
        let marks = out.new.marks.now in
        Quoted (args_in lists.now) out.old.numbers.now out.old.marks.now numbers marks target (answer result) }
    ensures same_lists { SameLists out.new out.old }
{
    depths_fit(lists.depths);
    published_depth_rates(lists, out)?;
    fee_at_target_sat_kvb(lists.depths, out.as_marked(), target)
}
