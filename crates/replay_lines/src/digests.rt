// Digests of lists, and the numbers of a generator.
ghost use Rattle.std.specs.Prelude.{◌≡◌, ◌-◌};
ghost use Rattle.std.specs.Iterator.{at_most};
ghost use Rattle.replay_lines.specs.Digest.{mixed, DigestsTo, turned_of, raised_of, replayed_hurdle};
ghost use Rattle.replay_lines.specs.Hurdles.{StartsHurdles, GivesHurdle};

use crate::words::word_at;

// `digest.rotate_left(1) ^ word`.
pub fn mix(digest: u64, word: u64) -> u64
    ensures { result ≡ mixed digest word }
{
    digest.rotate_left(1) ^ word
}

// The elements, mixed in one after the other.
#[tactic(auto, using(crate::proofs::Lists::mixed_one, crate::proofs::Lists::mixed_end))]
pub fn digest<T: Into<u64> + Copy>(start: u64, list: &[T]) -> u64
    ensures { DigestsTo T.converts start list.now result }
{
    let mut digest = start;
    for word in list {
        digest = mix(digest, (*word).into());
    }
    digest
}

// The next of a generator's words: xorshift by 13, 7 and 17.
pub fn turned(x: u64) -> u64
    ensures { result ≡ turned_of x }
{
    let a = x ^ x << 13;
    let b = a ^ a >> 7;
    b ^ b << 17
}

// The level, which is word 1; at every third place `level + (x & word 2)`, modulo 2^64.
fn raised(words: &[u64], place: usize, x: u64) -> u64
    ensures { result ≡ raised_of words.now place x }
{
    let level = word_at(words, 1);
    if place % 3 == 0 {
        level.wrapping_add(x & word_at(words, 2))
    } else {
        level
    }
}

// The hurdle at a place. `left` counts it and those after it; where that is at most word 3, word 4 is added, modulo
// 2^64.
pub fn hurdle(words: &[u64], place: usize, left: u64, x: u64) -> u64
    ensures { result ≡ replayed_hurdle words.now place left x }
{
    let hurdle = raised(words, place, x);
    if left <= word_at(words, 3) {
        hurdle.wrapping_add(word_at(words, 4))
    } else {
        hurdle
    }
}

// The hurdles that a question's words describe: word 0 starts the generator, word 5 says how many they are, 2,304 at
// most.
#[derive(Drop)]
pub struct Hurdles<'a> {
    words: &'a [u64],
    pub count: usize,
    place: usize,
    x: u64,
}

impl<'a> Hurdles<'a> {
    pub fn new(words: &'a [u64]) -> Hurdles<'a>
        ensures { StartsHurdles words.now result }
    {
        Hurdles {
            words,
            count: word_at(words, 5).min(2304) as usize,
            place: 0,
            x: word_at(words, 0),
        }
    }
}

impl Iterator for Hurdles<'_> {
    type Item = u64;

    ghost next_gives = { GivesHurdle };

    ghost remaining = { λ s. at_most (s.count - s.place) };

    fn next(&mut self) -> Option<u64> {
        if self.count <= self.place {
            return None;
        }
        let left = (self.count - self.place) as u64;
        self.x = turned(self.x);
        let hurdle = hurdle(self.words, self.place, left, self.x);
        self.place += 1;
        Some(hurdle)
    }
}
