// The entries and the targets of the lines read.
ghost use Rattle.std.specs.Prelude.{◌≡◌};
ghost use Rattle.std.specs.Result.{result_err};
ghost use Rattle.quote_lines.specs.Format.{accept, last, target};

use crate::few::Few;
use crate::line::Line;
use std::marker::Model;

// How many entries there may be, and how many targets.
const MOST: usize = 64;

// The number of the first bad line, from 1.
#[derive(Clone, Copy, Debug, PartialEq, Eq)]
pub struct BadLine(pub u64);

// The entries in order, and the targets. An entry's depth, rate and mark stand in lists of their own, since the
// lookup and the hold pass take them so, as the C interface does.
#[derive(Clone, Copy)]
pub struct Board {
    pub depths: Few<u32, MOST>,
    pub rates: Few<u64, MOST>,
    pub marks: Few<u8, MOST>,
    pub targets: Few<u32, MOST>,
}

// An input with a bad line: the number of the first one, and the board that the lines before it made.
#[derive(Clone, Copy)]
pub struct BadInput {
    pub line: BadLine,
    pub before: Board,
}

// Clauses see the four lists.
impl Model for Board {
    ghost use Rattle.std.specs.Prelude.{◌≡◌, length};
    ghost use Rattle.quote_lines.specs.Format.{Board as Lists};

    ghost Value = { Lists };

    ghost view = { λ b. record {
      depths = b.depths;
      rates = b.rates;
      marks = b.marks;
      targets = b.targets;
    } };

    ghost invariant = { λ b. (length b.rates ≡ length b.depths) × (length b.marks ≡ length b.depths) };

    ghost inverse = { λ b. record {
      depths = b.depths;
      rates = b.rates;
      marks = b.marks;
      targets = b.targets;
    } };
}

impl Board {
    ghost use Rattle.quote_lines.specs.Store.{say_of, empty_board, next_line, entry_fits, board_after, bad_of};

    pub(crate) fn new() -> Self
        ensures { result ≡ empty_board }
    {
        Board {
            depths: Few::new(),
            rates: Few::new(),
            marks: Few::new(),
            targets: Few::new(),
        }
    }

    // Every line before the next one gave an entry or a target.
    fn next_line(&self) -> BadLine
        ensures { result ≡ next_line self.now }
    {
        BadLine(self.depths.len() as u64 + self.targets.len() as u64 + 1)
    }

    fn last_depth(&self) -> u32
        ensures { result ≡ last self.now.depths }
    {
        self.depths.as_slice().last().copied().unwrap_or(0)
    }

    fn fits(&self, depth: u32) -> bool
        ensures { result ≡ entry_fits self.now depth }
    {
        self.targets.is_empty() && !self.depths.is_full() && self.last_depth() <= depth
    }

    #[tactic(auto, unfolding(crate::specs::Format::accept))]
    fn push_entry(&mut self, depth: u32, rate: Option<u64>) -> Result<(), BadLine>
        ensures board { self.new ≡ board_after self.old (accept self.old (say_of (Line.Entry depth rate))) }
        ensures bad { result_err result ≡ bad_of self.old (accept self.old (say_of (Line.Entry depth rate))) }
    {
        if !self.fits(depth) {
            return Err(self.next_line());
        }
        self.depths.push(depth);
        self.rates.push(rate.unwrap_or(0));
        self.marks.push(u8::from(rate.is_some()));
        Ok(())
    }

    #[tactic(auto, unfolding(crate::specs::Format::accept))]
    fn push_target(&mut self, t: u32) -> Result<(), BadLine>
        ensures board { self.new ≡ board_after self.old (accept self.old (target t)) }
        ensures bad { result_err result ≡ bad_of self.old (accept self.old (target t)) }
    {
        if self.targets.is_full() {
            return Err(self.next_line());
        }
        self.targets.push(t);
        Ok(())
    }

    // A whole line more. A bad line changes nothing.
    #[tactic(auto, unfolding(crate::specs::Format::accept))]
    pub(crate) fn accept(&mut self, line: Line) -> Result<(), BadLine>
        ensures board { self.new ≡ board_after self.old (accept self.old (say_of line)) }
        ensures bad { result_err result ≡ bad_of self.old (accept self.old (say_of line)) }
    {
        match line {
            Line::Entry(depth, rate) => self.push_entry(depth, rate),
            Line::Target(t) => self.push_target(t),
            _ => Err(self.next_line()),
        }
    }
}
