// Questions, as they stand in the lines of a text.
ghost use Rattle.std.specs.Prelude.{◌≡◌, length};
ghost use Rattle.std.specs.Iterator.{YieldsFirstRef, item_count};
ghost use Rattle.replay_lines.specs.Hex.{hex_digit, hex_of};
ghost use Rattle.replay_lines.specs.Lines.{up_to, lines_of, words_of};
ghost use Rattle.replay_lines.specs.Lists.{over};

use crate::words::{Words, rest};

// How many bytes stand before the byte b.
#[tactic(auto, using(crate::proofs::Lines::up_to_first))]
fn find(s: &[u8], b: u8) -> usize
    ensures { result ≡ length (up_to b s.now) }
{
    s.iter().position(|x| *x == b).unwrap_or(s.len())
}

// The bytes that stand before the byte b.
#[tactic(auto, using(crate::proofs::Lines::up_to_takes))]
fn before(s: &[u8], b: u8) -> &[u8]
    ensures { result.now ≡ up_to b s.now }
{
    let end = find(s, b);
    &s[..end]
}

// The lines of a text, each without its newline, which a last one need not have.
#[derive(Drop)]
pub struct Lines<'a> {
    left: &'a [u8],
}

impl<'a> Lines<'a> {
    pub fn new(text: &'a [u8]) -> Lines<'a>
        ensures { result.left.now ≡ text.now }
    {
        Lines { left: text }
    }
}

impl<'a> Iterator for Lines<'a> {
    type Item = &'a [u8];

    ghost next_gives = { YieldsFirstRef (λ s. lines_of s.left.now) };

    ghost remaining = { item_count (λ s. lines_of s.left.now) };

    #[tactic(auto, using(crate::proofs::Lines::lines_none, crate::proofs::Lines::lines_more))]
    fn next(&mut self) -> Option<&'a [u8]> {
        if self.left.is_empty() {
            return None;
        }
        let line = before(self.left, b'\n');
        self.left = rest(self.left, line.len() + 1);
        Some(line)
    }
}

// The value of a hexadecimal digit, and 0 for any other byte.
#[tactic(auto, unfolding(crate::specs::Hex::hex_digit))]
fn digit(b: u8) -> u64
    ensures { result ≡ hex_digit b }
{
    match b {
        b'0'..=b'9' => u64::from(b - b'0'),
        b'a'..=b'f' => u64::from(b - b'a' + 10),
        _ => 0,
    }
}

// The number that the first 16 digits spell, where those that are not there are 0.
#[tactic(auto, using(crate::proofs::Digits::hex_small), unfolding(crate::specs::Hex::hex_of))]
fn word(digits: &[u8]) -> u64
    ensures { result ≡ hex_of digits.now 0 16 }
{
    let mut x: u64 = 0;
    for i in 0..16 {
        x = x % 0x1000_0000_0000_0000 * 16 + digit(digits.get(i).copied().unwrap_or(0));
    }
    x
}

// Puts a line's first 512 words over a list, digits that are not there as 0. What the list has more stays. Words that
// would start past the line's end are put as 0 with no digit read, since most lines have few words.
#[tactic(auto, using(crate::proofs::Lists::words_put), unfolding(crate::specs::Lists::over))]
pub fn read_words(line: &[u8], out: &mut [u64])
    ensures { out.new ≡ over (words_of line.now (length (up_to 32 line.now)) 512) out.old }
{
    let first = find(line, b' ') + 1;
    let most = out.len().min(512);
    let started = (line.len().saturating_sub(first) + 16) / 17;
    let there = started.min(most);
    for i in 0..there {
        out[i] = word(rest(line, first + 17 * i));
    }
    for j in there..most {
        out[j] = 0;
    }
}

// A function's name, and the arguments.
#[derive(Clone, Copy)]
pub struct Question<'a> {
    pub name: &'a [u8],
    pub words: Words<'a>,
}

impl<'a> Question<'a> {
    pub fn new(line: &'a [u8], words: &'a [u64]) -> Question<'a>
        ensures name { result.name.now ≡ up_to 32 line.now }
        ensures words { result.words.left.now ≡ words.now }
    {
        Question {
            name: before(line, b' '),
            words: Words::new(words),
        }
    }
}
