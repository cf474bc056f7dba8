// Room for one more hurdle at either end: what is held moves together, hurdles and pairs alike.
ghost use Rattle.std.specs.Prelude.{◌≡◌, ◌+◌, ◌≤◌, length};
ghost use Rattle.rbitcoin_mempool.specs.Ends.{newest};
ghost use Rattle.rbitcoin_mempool.specs.Memory.{windows_of, SameLent, ValidFor};
ghost use Rattle.rbitcoin_mempool.specs.Windows.{Valid, each_target, move_region, moved_to, room_of};

use super::history::AnalogHistory;
use super::memory::WindowMemory;
use super::window::End;

impl AnalogHistory {
    // The pairs of all held windows moved, in each target's region, as the held hurdles move to start at place to. Of
    // the memory these two lists alone: of the whole, the contract would have to say that the hurdles stay.
    fn move_regions(&self, to: usize, befores: &mut [f64], aheads: &mut [u64])
        requires count_bound { to + self.now.count ≤ self.now.capacity }
        requires valid { Valid self.now self.now.capacity (length befores.old) (length aheads.old) }
        ensures befores_after { let s = self.now in
            befores.new ≡ each_target (move_region s.capacity to s.start s.count) s.tracked befores.old }
        ensures aheads_after { let s = self.now in
            aheads.new ≡ each_target (move_region s.capacity to s.start s.count) s.tracked aheads.old }
    {
        for d in 0..self.tracked {
            let base = d * self.capacity;
            let from = base + self.start;
            slices::moves::copy_within(befores, base + to, from, self.count);
            slices::moves::copy_within(aheads, base + to, from, self.count);
        }
    }

    // Everything held moved to start at place to.
    fn move_to(&mut self, to: usize, memory: &mut WindowMemory)
        requires count_bound { to + self.old.count ≤ self.old.capacity }
        requires valid { ValidFor self.old memory.old }
        ensures moved { windows_of self.new memory.new ≡ moved_to to (windows_of self.old memory.old) }
        ensures lent { SameLent memory.old memory.new }
    {
        slices::moves::copy_within(memory.hurdles, to, self.start, self.count);
        self.move_regions(to, memory.befores, memory.aheads);
        self.start = to;
    }

    // Room for one more hurdle, after the newest or before the oldest. A call in each arm: with one behind the match,
    // the proof no longer knows which end it is for.
    pub(crate) fn make_room(&mut self, end: End, memory: &mut WindowMemory)
        requires { ValidFor self.old memory.old }
        ensures room { windows_of self.new memory.new ≡ room_of (newest end) (windows_of self.old memory.old) }
        ensures lent { SameLent memory.old memory.new }
    {
        let free = self.capacity - self.count;
        match end {
            End::Newest => {
                if self.start + self.count == self.capacity {
                    self.move_to(free / 4, memory);
                }
            }
            End::Oldest => {
                if self.start == 0 {
                    self.move_to(free - free / 4, memory);
                }
            }
        }
    }
}
