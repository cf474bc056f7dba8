// The kept hashes: 144 heights, sorted from the first place on, and 32 bytes for each. Their count is in C's state,
// apart from the lists, so that it is passed and answered.
ghost use Rattle.std.specs.Prelude.{◌≡◌, ◌+◌, ◌-◌, ◌*◌, ◌≤◌, ◌<◌, length};
ghost use Rattle.rbitcoin_net.specs.Hashes.{hash_list, hash_of, Room};
ghost use Rattle.rbitcoin_net.specs.Hashes.{moved_hashes, put_hash, remove_hash, note_at, note_hash_in};
ghost use Rattle.rbitcoin_net.specs.Memory.{hashes_of, SameHashes};

use super::memory::HashMemory;
use super::search::is_at;
use super::{BlockHash, RECENT_HASHES};
use slices::moves::{copy_front, copy_within};
use slices::search::lower_bound;

impl HashMemory<'_> {
    // n hashes at place `from`, also at place `to`.
    #[tactic(auto, using(slices::proofs::Runs::copied))]
    fn copy_within(&mut self, to: usize, from: usize, n: usize)
        requires fits { (to + n ≤ 144) × (from + n ≤ 144) }
        requires long { (144 ≤ length self.old.heights.now) × (4608 ≤ length self.old.bytes.now) }
        ensures moved { hashes_of self.new ≡ moved_hashes to from n (hashes_of self.old) }
        ensures lent { SameHashes self.old self.new }
    {
        copy_within(self.heights, to, from, n);
        copy_within(self.bytes, 32 * to, 32 * from, 32 * n);
    }

    fn put(&mut self, q: usize, height: u32, hash: [u8; 32])
        requires place { q < 144 }
        requires long { (144 ≤ length self.old.heights.now) × (4608 ≤ length self.old.bytes.now) }
        ensures put { hashes_of self.new ≡ put_hash q height hash (hashes_of self.old) }
        ensures lent { SameHashes self.old self.new }
    {
        self.heights[q] = height;
        let a = 32 * q;
        let e = a + 32;
        copy_front(&mut self.bytes[a..e], &hash);
    }

    // The hash of a height dropped, if it is kept; the number that is left.
    #[tactic(auto, using(crate::proofs::Steps::removing))]
    pub(crate) fn remove(&mut self, count: usize, height: u32) -> usize
        requires { Room (hash_list count (hashes_of self.old)) }
        ensures removed { hash_list result (hashes_of self.new)
            ≡ remove_hash height (hash_list count (hashes_of self.old)) }
        ensures lent { SameHashes self.old self.new }
    {
        let kept = self.lists();
        let q = lower_bound(kept.heights, 0, count, height);
        if !is_at(kept.heights, count, q, height) {
            return count;
        }
        self.copy_within(q, q + 1, count - q - 1);
        count - 1
    }

    // A hash put at its place: over the one of that height; or where fewer than 144 are kept, between the others; or
    // where the oldest goes and is not the new one itself.
    #[tactic(auto, using(crate::proofs::Steps::noting), unfolding(crate::specs::Hashes::note_at))]
    fn note_at(&mut self, count: usize, q: usize, height: u32, hash: BlockHash) -> usize
        requires { Room (hash_list count (hashes_of self.old)) × (q ≤ count) }
        ensures noted { hash_list result (hashes_of self.new)
            ≡ note_at q height hash.bytes (hash_list count (hashes_of self.old)) }
        ensures lent { SameHashes self.old self.new }
    {
        let kept = self.lists();
        if is_at(kept.heights, count, q, height) {
            self.put(q, height, hash.bytes);
            return count;
        }
        if count < RECENT_HASHES {
            self.copy_within(q + 1, q, count - q);
            self.put(q, height, hash.bytes);
            return count + 1;
        }
        if q == 0 {
            return count;
        }
        self.copy_within(0, 1, q - 1);
        self.put(q - 1, height, hash.bytes);
        count
    }

    // The hash of a height kept, if there is one, and the newest 144 of all; how many are kept then.
    #[tactic(auto, using(crate::proofs::Hashes::hash_found))]
    pub(crate) fn note(&mut self, count: usize, height: u32, hash: Option<BlockHash>) -> usize
        requires { Room (hash_list count (hashes_of self.old)) }
        ensures noted { hash_list result (hashes_of self.new)
            ≡ note_hash_in height (hash_of hash) (hash_list count (hashes_of self.old)) }
        ensures lent { SameHashes self.old self.new }
    {
        match hash {
            Some(hash) => {
                let kept = self.lists();
                let q = lower_bound(kept.heights, 0, count, height);
                self.note_at(count, q, height, hash)
            }
            None => count,
        }
    }
}
