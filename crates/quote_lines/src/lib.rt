// The line format of `feequote` (document 01, case M), read a byte at a time: a line may be of any
// length, and only what it says so far is kept. `field` reads the bytes of a field, `line` the
// fields of a line, `board` keeps the entries and targets in lists of `few`, `reader` reads an input.
#![tactic(auto)]

pub mod board;
pub mod few;
pub mod field;
pub mod line;
pub mod reader;
