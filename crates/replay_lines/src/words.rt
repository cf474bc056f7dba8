// The words of a question, read from the front.
ghost use Rattle.std.specs.Prelude.{◌≡◌, ℕ, ◌+◌, min, map, length, take, drop, slice_index, from_bits};
ghost use Rattle.std.specs.Float.{binary64};
ghost use Rattle.io.specs.Counts.{IsPrefixLen};
ghost use Rattle.replay_lines.specs.Lists.{low32, low8};
ghost use Rattle.replay_lines.specs.Words.{next_word, next_list, LeavesAfter};

use crate::float_of;
use arrayvec::ArrayVec;

// What is left to read. Words that are not there are 0.
#[derive(Clone, Copy)]
pub struct Words<'a> {
    left: &'a [u64],
}

// A number of which a word has the low bits.
pub trait Low: Copy + Default {
    ghost low: { ℕ → Self };

    fn low(word: u64) -> Self
        ensures { result ≡ low word };
}

impl Low for u64 {
    ghost low = { λ x. x };

    fn low(word: u64) -> u64 {
        word
    }
}

impl Low for u32 {
    ghost low = { low32 };

    fn low(word: u64) -> u32 {
        (word % 0x1_0000_0000) as u32
    }
}

impl Low for u8 {
    ghost low = { low8 };

    fn low(word: u64) -> u8 {
        (word % 0x100) as u8
    }
}

impl<'a> Words<'a> {
    pub fn new(words: &'a [u64]) -> Words<'a>
        ensures { result.left.now ≡ words.now }
    {
        Words { left: words }
    }

    // The low bits of the next word.
    pub fn next<T: Low>(&mut self) -> T
        ensures value { result ≡ T.low (next_word self.old) }
        ensures left { LeavesAfter 1 self.old self.new }
    {
        match self.left.split_first() {
            Some((word, left)) => {
                self.left = left;
                T::low(*word)
            }
            None => T::low(0),
        }
    }

    // A number of calls, of which a question has at most 512.
    pub fn count(&mut self) -> u64
        ensures value { result ≡ min 512 (next_word self.old) }
        ensures left { LeavesAfter 1 self.old self.new }
    {
        self.next::<u64>().min(512)
    }

    pub fn f64(&mut self) -> f64
        ensures value { result ≡ from_bits binary64 (next_word self.old) }
        ensures left { LeavesAfter 1 self.old self.new }
    {
        float_of(self.next())
    }

    // The next n words, or as many as there are.
    pub fn part(&mut self, n: u64) -> &'a [u64]
        ensures value { result.now ≡ take n self.old.left.now }
        ensures left { LeavesAfter n self.old self.new }
    {
        let (part, left) = self.left.split_at(at_most(n, self.left));
        self.left = left;
        part
    }

    // A list, as far as there are elements.
    pub fn list(&mut self) -> &'a [u64]
        ensures value { result.now ≡ next_list self.old }
        ensures left { LeavesAfter (1 + next_word self.old) self.old self.new }
    {
        let n = self.next();
        self.part(n)
    }

    // A list's elements, or the low bits of each, as far as there is room.
    #[tactic(auto, using(crate::proofs::Lists::lows))]
    pub fn list_of<T: Low, const N: usize>(&mut self) -> ArrayVec<T, N>
        ensures value { result.items ≡ take N (map T.low (next_list self.old)) }
        ensures left { LeavesAfter (1 + next_word self.old) self.old self.new }
    {
        let list = part(self.list(), 0, N);
        let mut lows = ArrayVec::new();
        for word in list {
            lows.push(T::low(*word));
        }
        lows
    }
}

// The word at a place, and 0 past the end.
pub fn word_at(words: &[u64], at: usize) -> u64
    ensures { result ≡ slice_index words.now at }
{
    words.get(at).copied().unwrap_or(0)
}

// What stands from a place on.
pub fn rest<T>(list: &[T], from: usize) -> &[T]
    ensures { result.now ≡ drop from list.now }
{
    &list[from.min(list.len())..]
}

// At most n elements from a place on.
pub fn part<T>(list: &[T], from: usize, n: usize) -> &[T]
    ensures { result.now ≡ take n (drop from list.now) }
{
    let rest = rest(list, from);
    &rest[..n.min(rest.len())]
}

// At most as many as a list has.
pub fn at_most(n: u64, list: &[u64]) -> usize
    ensures value { result ≡ min n (length list.now) }
    ensures prefix_len { IsPrefixLen result list.now }
{
    n.min(list.len() as u64) as usize
}
