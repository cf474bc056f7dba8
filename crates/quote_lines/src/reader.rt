// What the lines of an input say: a board, or the first bad line with the board before it.
ghost use Rattle.std.specs.Prelude.{◌≡◌};
ghost use Rattle.quote_lines.specs.Format.{parse};
ghost use Rattle.quote_lines.specs.Store.{at_line_start, new_reader, line_ended, byte_read, fed, finished, seen};

use crate::board::{BadInput, BadLine, Board};
use crate::field::Field;
use crate::line::Line;

// Between two bytes: what the line says so far, what its last field says so far, and what is kept of the lines
// before. After a bad line nothing more is kept: its number stands beside the board and in no `Result` with it, since
// the definition of a byte's step is over both.
#[derive(Clone, Copy)]
pub struct Reader {
    pub line: Line,
    pub field: Field,
    pub board: Board,
    pub bad: Option<BadLine>,
}

impl Reader {
    // Before the first byte.
    pub fn new() -> Self
        ensures { result ≡ new_reader }
    {
        Reader {
            line: Line::Nothing,
            field: Field::Empty,
            board: Board::new(),
            bad: None,
        }
    }

    // The end of a line.
    #[tactic(auto, unfolding(crate::specs::Store::line_ended))]
    fn end_line(&mut self)
        ensures { self.new ≡ line_ended self.old }
    {
        let line = self.line.next(self.field);
        self.line = Line::Nothing;
        self.field = Field::Empty;
        if self.bad.is_none() {
            self.bad = self.board.accept(line).err();
        }
    }

    // One byte more.
    #[tactic(auto, unfolding(crate::specs::Store::byte_read))]
    fn read_byte(&mut self, b: u8)
        ensures { self.new ≡ byte_read self.old b }
    {
        match b {
            b'\n' => self.end_line(),
            b' ' => {
                self.line = self.line.next(self.field);
                self.field = Field::Empty;
            }
            _ => self.field = self.field.grown(b),
        }
    }

    // The next part of the input.
    #[tactic(auto, using(crate::proofs::Keeps::fed_none, crate::proofs::Keeps::fed_more))]
    pub fn feed(&mut self, input: &[u8])
        ensures { self.new ≡ fed self.old input.now }
    {
        for b in input {
            self.read_byte(*b);
        }
    }

    // Whether no byte of a line has been read. The last newline opens no line.
    fn is_at_line_start(&self) -> bool
        ensures { result ≡ at_line_start self.now.line self.now.field }
    {
        self.line == Line::Nothing && self.field == Field::Empty
    }

    // The end of the input. A line that has begun may lack its newline.
    #[tactic(auto, unfolding(crate::specs::Store::finished))]
    pub fn finish(mut self) -> Result<Board, BadInput>
        ensures { result ≡ finished self }
    {
        if !self.is_at_line_start() {
            self.end_line();
        }
        match self.bad {
            None => Ok(self.board),
            Some(line) => Err(BadInput {
                line,
                before: self.board,
            }),
        }
    }
}

// A whole input.
#[tactic(auto, using(crate::proofs::Inputs::reads))]
pub fn read(input: &[u8]) -> Result<Board, BadInput>
    ensures kept { result ≡ finished (fed new_reader input.now) }
    ensures parsed { seen result ≡ parse input.now }
{
    let mut reader = Reader::new();
    reader.feed(input);
    reader.finish()
}
