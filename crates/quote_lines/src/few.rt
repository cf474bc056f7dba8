// A list of at most so many numbers, which lies in the value itself and is copied with it.
ghost use Rattle.std.specs.Prelude.{◌≡◌, ◌<◌, ◌≤◌, ◌==◌, [], ◌∷◌, ◌++◌, length, take, ⊤};

use std::alloc::AllocError;
use std::marker::Model;

// A number, with what stands in the unused places of a list.
pub trait Zero: Copy {
    ghost zero: { Self };

    fn zero() -> Self
        ensures { result ≡ zero };
}

impl Zero for u8 {
    ghost zero = { 0 };

    fn zero() -> Self {
        0
    }
}

impl Zero for u32 {
    ghost zero = { 0 };

    fn zero() -> Self {
        0
    }
}

impl Zero for u64 {
    ghost zero = { 0 };

    fn zero() -> Self {
        0
    }
}

// The first places hold the list, and the others zeros.
pub struct Few<T: Zero, const MOST: usize> {
    places: [T; MOST],
    len: usize,
}

// Clauses see the list.
impl<T: Zero, const MOST: usize> Model for Few<T, MOST> {
    ghost use Rattle.std.specs.Prelude.{List, ◌-◌, ◌++◌, length, take, replicate};
    ghost use Rattle.quote_lines.specs.Few.{IsPadded, front-long, padded_again};

    ghost Value = { List T };

    ghost view = { λ f. take f.len f.places };

    ghost invariant = { λ f. IsPadded T.zero MOST f.len f.places };

    ghost inverse = { λ xs. record { places = xs ++ replicate (MOST - length xs) T.zero; len = length xs } };

    ghost inverse_ok = { λ f h i. record {
      places = padded_again T.zero MOST f.len f.places h i;
      len = front-long T.zero MOST f.len f.places h i;
    } };
}

impl<T: Zero, const MOST: usize> Clone for Few<T, MOST> {
    ghost is_clone = { λ f g. g ≡ f };

    ghost is_infallible = { λ _. ⊤ };

    fn clone(&self) -> Result<Self, AllocError> {
        Ok(*self)
    }
}

impl<T: Zero, const MOST: usize> Copy for Few<T, MOST> {}

impl<T: Zero, const MOST: usize> Few<T, MOST> {
    pub fn new() -> Self
        ensures { result ≡ [] }
    {
        Few {
            places: [T::zero(); MOST],
            len: 0,
        }
    }

    // The list that a slice holds, as far as there is room.
    #[tactic(auto, using(std::proofs::lemmas::List::take_min, std::proofs::lemmas::List::take_all))]
    pub fn from_slice(items: &[T]) -> Self
        ensures front { result ≡ take MOST items.now }
        ensures whole { length items.now ≤ MOST → result ≡ items.now }
    {
        let front = &items[..MOST.min(items.len())];
        let mut few = Few::new();
        for item in front {
            few.push(*item);
        }
        few
    }

    pub fn len(&self) -> usize
        ensures value { result ≡ length self.now }
        ensures fits { result ≤ MOST }
    {
        self.len
    }

    pub fn is_empty(&self) -> bool
        ensures { result ≡ (length self.now == 0) }
    {
        self.len == 0
    }

    pub fn is_full(&self) -> bool
        ensures value { result ≡ (length self.now == MOST) }
        ensures fits { length self.now ≤ MOST }
    {
        self.len == MOST
    }

    pub fn as_slice(&self) -> &[T]
        ensures value { result.now ≡ self.now }
        ensures fits { length result.now ≤ MOST }
    {
        &self.places[..self.len]
    }

    // One more at the end.
    pub(crate) fn push(&mut self, item: T)
        requires { length self.old < MOST }
        ensures { self.new ≡ self.old ++ item ∷ [] }
    {
        self.places[self.len] = item;
        self.len += 1;
    }
}
