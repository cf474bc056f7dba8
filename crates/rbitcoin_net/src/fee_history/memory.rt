// The memory that is lent to a history.
ghost use Rattle.std.specs.Prelude.{◌≡◌};

use rbitcoin_mempool::fee_est::Marked;

// The held rows' lists: height, mark, rate and byte count of each, oldest first from a state's start on. Four lists,
// with the marks beside the rates: C lends them so. A state comes from C apart from its memory, so that what holds of
// both stands in contracts: `Reach` of the rows, `Room` of the hashes. One struct of rows, hashes and windows was
// tried: the contracts of `insert` and `insert_if_absent` across C did not prove with it.
#[derive(Drop)]
pub struct RowMemory<'a> {
    pub heights: &'a mut [u32],
    pub marks: &'a mut [u8],
    pub rates: &'a mut [u64],
    pub sizes: &'a mut [u64],
}

// The kept hashes' lists: 144 heights, and 32 bytes for each.
#[derive(Drop)]
pub struct HashMemory<'a> {
    pub heights: &'a mut [u32],
    pub bytes: &'a mut [u8],
}

// Rows, only to read. Two types, here and of the hashes: a view to read is copied and one to write cannot be, and no
// type parameter stands for `&` and for `&mut`.
#[derive(Clone, Copy)]
pub struct RowLists<'a> {
    pub heights: &'a [u32],
    pub marks: &'a [u8],
    pub rates: &'a [u64],
    pub sizes: &'a [u64],
}

// Hashes, only to read.
#[derive(Clone, Copy)]
pub struct HashLists<'a> {
    pub heights: &'a [u32],
    pub bytes: &'a [u8],
}

impl RowMemory<'_> {
    pub fn lists(&self) -> RowLists<'_>
        ensures heights { result.heights.now ≡ self.now.heights.now }
        ensures marks { result.marks.now ≡ self.now.marks.now }
        ensures rates { result.rates.now ≡ self.now.rates.now }
        ensures sizes { result.sizes.now ≡ self.now.sizes.now }
    {
        RowLists {
            heights: &*self.heights,
            marks: &*self.marks,
            rates: &*self.rates,
            sizes: &*self.sizes,
        }
    }
}

impl RowLists<'_> {
    // The rates with their marks.
    pub(crate) fn marked(&self) -> Marked<'_>
        ensures numbers { result.numbers.now ≡ self.now.rates.now }
        ensures marks { result.marks.now ≡ self.now.marks.now }
    {
        Marked {
            numbers: self.rates,
            marks: self.marks,
        }
    }
}

impl HashMemory<'_> {
    pub fn lists(&self) -> HashLists<'_>
        ensures heights { result.heights.now ≡ self.now.heights.now }
        ensures bytes { result.bytes.now ≡ self.now.bytes.now }
    {
        HashLists {
            heights: &*self.heights,
            bytes: &*self.bytes,
        }
    }
}
