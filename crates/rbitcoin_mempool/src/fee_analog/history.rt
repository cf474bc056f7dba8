// The pair windows: hurdles, and for each tracked target the pairs of its windows, kept in step as hurdles come and go
// at either end. The memory is the caller's. Held hurdles lie together, oldest first; the pair of a window is stored at
// the place of the window's first hurdle, in its target's region of `capacity` places. So the count of pairs is
// arithmetic on the count of hurdles, and a pop moves nothing.
ghost use Rattle.std.specs.Prelude.{◌≡◌, length, slice_index, IfOk};
ghost use Rattle.slices.specs.Lists.{tabulate};
ghost use Rattle.rbitcoin_mempool.specs.Outcome.{verdict, verdict_of};
ghost use Rattle.rbitcoin_mempool.specs.Windows.{open_refusal, opened, unopened, state_refusal, pair_count};
ghost use Rattle.rbitcoin_mempool.specs.Windows.{push_refusal_of, push_of, push_back_of, push_front_of, Room, store_of};
ghost use Rattle.rbitcoin_mempool.specs.Windows.{pop_of, pop_back_of, pop_front_of, rebuild_refusal_of, rebuilt_of};
ghost use Rattle.rbitcoin_mempool.specs.Ends.{newest};
ghost use Rattle.rbitcoin_mempool.specs.Memory.{windows_of, windows_seen, SameLent, ValidFor};
ghost use Rattle.rbitcoin_mempool.specs.Answer.{answer};
ghost use Rattle.rbitcoin_mempool.specs.Counted.{counted, counted_of};
ghost use Rattle.rbitcoin_mempool.specs.Scan.{rate_sat_kvb, ScratchAfter};

use super::ANALOG_READY_PAIRS;
use super::memory::{WindowLists, WindowMemory};
use super::quantile::in_unit;
use super::window::{End, Window};
use crate::answer::{Rate, Refusal};

// Up to 16 targets, the places past their number `tracked` 0; `count` hurdles from place `start` on, of `capacity`.
// An array with its number beside, and no slice: the state passes to and from C by value.
#[repr(C)]
#[derive(Clone, Copy)]
pub struct AnalogHistory {
    pub targets: [u32; 16],
    pub tracked: usize,
    pub capacity: usize,
    pub start: usize,
    pub count: usize,
}

// Up to 16 targets; the places past them are 0.
fn padded(targets: &[u32]) -> [u32; 16]
    ensures { result ≡ tabulate (λ i. slice_index targets.now i) 0 16 }
{
    std::array::from_fn(
        |i: usize| -> u32
            ensures { result ≡ slice_index targets.entry.now i }
        { targets.get(i).copied().unwrap_or(0) },
    )
}

impl AnalogHistory {
    // The fixed empty state: no target and no capacity.
    #[tactic(auto, unfolding(crate::specs::Windows::unopened))]
    pub fn unopened() -> AnalogHistory
        ensures { result ≡ unopened }
    {
        AnalogHistory {
            targets: [0u32; 16],
            tracked: 0,
            capacity: 0,
            start: 0,
            count: 0,
        }
    }

    // Windows with nothing held, over memory that is left as it is.
    pub fn new(
        targets: &[u32],
        capacity: usize,
        lists: WindowLists,
    ) -> Result<AnalogHistory, Refusal>
        ensures refusal { let m = lists.entry in
            verdict result
            ≡ verdict_of
            (open_refusal targets.now capacity (length m.hurdles.now) (length m.befores.now) (length m.aheads.now)) }
        ensures state { let m = lists.entry in
            IfOk result (λ s. s
            ≡ opened targets.now capacity (length m.hurdles.now) (length m.befores.now) (length m.aheads.now)) }
    {
        let state = AnalogHistory {
            targets: padded(targets),
            tracked: targets.len(),
            capacity,
            start: 0,
            count: 0,
        };
        state.check_lent(lists)?;
        Ok(state)
    }

    // A hurdle put in after the newest, or before the oldest. Refused, the state and the memory are left as they are.
    pub fn push(&mut self, end: End, hurdle: u64, memory: &mut WindowMemory) -> Result<(), Refusal>
        ensures refusal { verdict result ≡ verdict_of (push_refusal_of (windows_of self.old memory.old)) }
        ensures after { let w = windows_of self.old memory.old in
            windows_of self.new memory.new ≡ push_of (newest end) hurdle w }
        ensures lent { SameLent memory.old memory.new }
    {
        self.check_push(memory.lists())?;
        self.make_room(end, memory);
        self.store(end, hurdle, memory);
        self.put_pairs(end, memory);
        Ok(())
    }

    // A hurdle stored in the room after the newest, or before the oldest.
    fn store(&mut self, end: End, hurdle: u64, memory: &mut WindowMemory)
        requires valid { ValidFor self.old memory.old }
        requires room { Room (newest end) self.old }
        ensures stored { let w = windows_of self.old memory.old in
            windows_of self.new memory.new ≡ store_of (newest end) hurdle w }
        ensures lent { SameLent memory.old memory.new }
    {
        let place = match end {
            End::Newest => self.start + self.count,
            End::Oldest => {
                self.start -= 1;
                self.start
            }
        };
        memory.hurdles[place] = hurdle;
        self.count += 1;
    }

    // Append the newest block's hurdle. This and the three below are the Rust's names.
    pub fn push_back(&mut self, hurdle: u64, memory: &mut WindowMemory) -> Result<(), Refusal>
        ensures refusal { verdict result ≡ verdict_of (push_refusal_of (windows_of self.old memory.old)) }
        ensures after { windows_of self.new memory.new ≡ push_back_of hurdle (windows_of self.old memory.old) }
        ensures lent { SameLent memory.old memory.new }
    {
        self.push(End::Newest, hurdle, memory)
    }

    // Prepend an older block's hurdle.
    pub fn push_front(&mut self, hurdle: u64, memory: &mut WindowMemory) -> Result<(), Refusal>
        ensures refusal { verdict result ≡ verdict_of (push_refusal_of (windows_of self.old memory.old)) }
        ensures after { windows_of self.new memory.new ≡ push_front_of hurdle (windows_of self.old memory.old) }
        ensures lent { SameLent memory.old memory.new }
    {
        self.push(End::Oldest, hurdle, memory)
    }

    // The newest hurdle goes, and its windows with it, or the oldest, and the lookbacks that start with it.
    pub fn pop(&mut self, end: End) -> Result<(), Refusal>
        ensures refusal { verdict result ≡ verdict_of (state_refusal self.old) }
        ensures state { self.new ≡ pop_of (newest end) self.old }
    {
        self.check()?;
        if self.count > 0 {
            self.start += end.popped_in_front();
            self.count -= 1;
        }
        Ok(())
    }

    // Drop the newest block's hurdle: its windows end with it.
    pub fn pop_back(&mut self) -> Result<(), Refusal>
        ensures refusal { verdict result ≡ verdict_of (state_refusal self.old) }
        ensures state { self.new ≡ pop_back_of self.old }
    {
        self.pop(End::Newest)
    }

    // Drop the oldest block's hurdle: its lookbacks start with it.
    pub fn pop_front(&mut self) -> Result<(), Refusal>
        ensures refusal { verdict result ≡ verdict_of (state_refusal self.old) }
        ensures state { self.new ≡ pop_front_of self.old }
    {
        self.pop(End::Oldest)
    }

    // Replace the sequence (oldest first).
    pub fn rebuild(&mut self, from: &[u64], memory: &mut WindowMemory) -> Result<(), Refusal>
        ensures refusal { verdict result ≡ verdict_of (rebuild_refusal_of from.now (windows_of self.old memory.old)) }
        ensures after { windows_of self.new memory.new ≡ rebuilt_of from.now (windows_of self.old memory.old) }
        ensures lent { SameLent memory.old memory.new }
    {
        self.check_rebuild(from.len(), memory.lists())?;
        self.start = 0;
        self.count = 0;
        for hurdle in from {
            self.push_back(*hurdle, memory)?;
        }
        Ok(())
    }

    // Pairs held for target `n_blocks` (0 for a target not tracked).
    pub fn pairs(&self, n_blocks: u32) -> Result<usize, Refusal>
        ensures { counted result ≡ counted_of (state_refusal self.now) (pair_count self.now n_blocks) }
    {
        self.check()?;
        if self.tracks(n_blocks) {
            return Ok(Window::of(n_blocks).count_in(self.count));
        }
        Ok(0)
    }

    // The quantile at `confidence`, in logarithms, of the hurdles (sat/kvB) of the windows that looked like now. None
    // before the target holds `ANALOG_READY_PAIRS` pairs. A scan that answers with a rate leaves `scratch` open.
    pub fn rate_sat_kvb(
        &self,
        n_blocks: u32,
        confidence: f64,
        lists: WindowLists,
        scratch: &mut [u64],
    ) -> Result<Rate, Refusal>
        ensures rate { let w = windows_seen self.now lists.entry in
            answer result ≡ rate_sat_kvb w (length scratch.old) n_blocks confidence }
        ensures scratch_after { ScratchAfter (answer result) scratch.old scratch.new }
    {
        self.check_scan(lists, scratch.len())?;
        let Some(d) = self.find_target(n_blocks) else {
            return Ok(None);
        };
        let pairs = Window::of(n_blocks).count_in(self.count);
        if pairs < ANALOG_READY_PAIRS || !in_unit(confidence) {
            return Ok(None);
        }
        Ok(Some(self.scan(d, confidence, lists, scratch)))
    }
}
