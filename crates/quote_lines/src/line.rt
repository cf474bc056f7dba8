// A line, a field at a time.
ghost use Rattle.std.specs.Prelude.{◌≡◌};
ghost use Rattle.quote_lines.specs.Machine.{next as Machine·next};

use crate::field::Field;

// What the fields of a line say so far. `Entry` is a depth and its rate, where it has one.
#[derive(Clone, Copy, Debug, PartialEq, Eq)]
pub enum Line {
    Nothing,
    AfterD,
    AfterDepth(u32),
    AfterT,
    Entry(u32, Option<u64>),
    Target(u32),
    Bad,
}

impl Line {
    // One field more. A depth and a target are numbers within u32.
    pub(crate) fn next(self, f: Field) -> Line
        ensures { result ≡ Machine·next self f }
    {
        match (self, f) {
            (Line::Nothing, Field::LetterD) => Line::AfterD,
            (Line::Nothing, Field::LetterT) => Line::AfterT,
            (Line::AfterD, Field::Number(n)) => u32::try_from(n).map_or(
                Line::Bad,
                Line::AfterDepth,
            ),
            (Line::AfterDepth(depth), Field::Number(n)) => Line::Entry(depth, Some(n)),
            (Line::AfterDepth(depth), Field::Dash) => Line::Entry(depth, None),
            (Line::AfterT, Field::Number(n)) => u32::try_from(n).map_or(Line::Bad, Line::Target),
            _ => Line::Bad,
        }
    }
}
