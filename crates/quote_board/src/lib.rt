// What `feequote` answers, as text: the quotes of a board, or the first bad line (document 01, case M).
#![tactic(auto)]

ghost use Rattle.std.specs.Prelude.{◌≡◌, [], ◌∷◌, ◌++◌, ◌+◌, ◌*◌, ◌≤◌, length};
ghost use Rattle.arrayvec.specs.ArrayVec.{array_vec_len};
ghost use Rattle.rbitcoin_mempool.specs.Answer.{answer};
ghost use Rattle.rbitcoin_mempool.specs.Hold.{held_numbers, held_marks};
ghost use Rattle.quote_lines.specs.Store.{seen};
ghost use Rattle.quote_lines.specs.Bytes.{newline};
ghost use Rattle.quote_board.specs.Text.{held, decimal, rate_text, quote_line, quote_lines};
ghost use Rattle.quote_board.specs.Text.{quotes, bad_text, text, feequote};

use arrayvec::ArrayVec;
use quote_lines::board::{BadInput, BadLine, Board};
use quote_lines::few::Few;
use quote_lines::reader::read;
use rbitcoin_mempool::answer::{Rate, Refusal};
use rbitcoin_mempool::fee_est::{
    Marked, MarkedMut, fee_at_target_sat_kvb, hold_defined_then_monotone,
};

// An answer. The longest is the header, 12 bytes, and 64 lines of at most 42.
pub type Text = ArrayVec<u8, 4096>;

fn put(out: &mut Text, t: &[u8])
    requires { array_vec_len out.old + length t.now ≤ 4096 }
    ensures text { out.new.items ≡ out.old.items ++ t.now }
    ensures len { array_vec_len out.new ≡ array_vec_len out.old + length t.now }
{
    let _fits = out.try_extend_from_slice(t);
}

#[tactic(auto, using(crate::proofs::Writing::decimal_is, crate::proofs::Writing::decimal_short))]
fn put_decimal(out: &mut Text, n: u64)
    requires { array_vec_len out.old + 20 ≤ 4096 }
    ensures text { out.new.items ≡ out.old.items ++ decimal n }
    ensures upper_bound { array_vec_len out.new ≤ array_vec_len out.old + 20 }
{
    let mut digits = [0; 20];
    let count = io::decimal(n, &mut digits);
    put(out, &digits[..count]);
}

#[tactic(auto, unfolding(crate::specs::Text::rate_text))]
fn put_rate(out: &mut Text, rate: Result<Rate, Refusal>)
    requires { array_vec_len out.old + 20 ≤ 4096 }
    ensures text { out.new.items ≡ out.old.items ++ rate_text (answer rate) }
    ensures upper_bound { array_vec_len out.new ≤ array_vec_len out.old + 20 }
{
    match rate {
        Ok(Some(rate)) => put_decimal(out, rate),
        _ => put(out, b"-"),
    }
}

// The line of a target: two numbers of at most 20 digits, a space and a newline.
#[tactic(auto, unfolding(crate::specs::Text::quote_line))]
fn put_quote(out: &mut Text, board: &Board, target: u32)
    requires { array_vec_len out.old + 42 ≤ 4096 }
    ensures text { out.new.items ≡ out.old.items
        ++ quote_line board.now.depths board.now.rates board.now.marks target }
    ensures upper_bound { array_vec_len out.new ≤ array_vec_len out.old + 42 }
{
    let rates = Marked {
        numbers: board.rates.as_slice(),
        marks: board.marks.as_slice(),
    };
    let rate = fee_at_target_sat_kvb(board.depths.as_slice(), rates, target);
    put_decimal(out, u64::from(target));
    put(out, b" ");
    put_rate(out, rate);
    put(out, b"\n");
}

// A list that the hold pass can write into.
fn listed<T: Copy + Default>(items: &[T]) -> ArrayVec<T, 64>
    requires { length items.now ≤ 64 }
    ensures { result.items ≡ items.now }
{
    let mut list = ArrayVec::new();
    let _fits = list.try_extend_from_slice(items);
    list
}

// The board after the hold pass, which writes into these copies of its numbers and marks. They are of one length, and
// each mark is 0 or 1.
fn held_by(mut board: Board, numbers: &mut [u64], marks: &mut [u8]) -> Board
    requires numbers { numbers.old ≡ board.rates }
    requires marks { marks.old ≡ board.marks }
    ensures { result ≡ held board }
{
    let _ = hold_defined_then_monotone(&mut MarkedMut {
        numbers: &mut *numbers,
        marks: &mut *marks,
    });
    board.rates = Few::from_slice(numbers);
    board.marks = Few::from_slice(marks);
    board
}

fn held(board: Board) -> Board
    ensures { result ≡ held board }
{
    let mut numbers = listed(board.rates.as_slice());
    let mut marks = listed(board.marks.as_slice());
    held_by(board, numbers.as_mut_slice(), marks.as_mut_slice())
}

// The lines of the targets, of which a board has at most 64.
#[tactic(auto, using(crate::proofs::Writing::quotes_none, crate::proofs::Writing::quotes_more))]
fn put_quotes(out: &mut Text, board: &Board)
    requires { array_vec_len out.old + 42 * 64 ≤ 4096 }
    ensures { out.new.items ≡ out.old.items
        ++ quote_lines board.now.depths board.now.rates board.now.marks board.now.targets }
{
    for target in board.targets.as_slice() {
        put_quote(out, board, *target);
    }
}

// The header and the lines of the targets.
fn quotes(board: Board) -> Text
    ensures { result.items ≡ quotes board }
{
    let mut out = Text::new();
    put(&mut out, b"target rate\n");
    put_quotes(&mut out, &held(board));
    out
}

fn bad_text(bad: BadLine) -> Text
    ensures { result.items ≡ bad_text bad.0 }
{
    let mut out = Text::new();
    put(&mut out, b"bad line ");
    put_decimal(&mut out, bad.0);
    put(&mut out, b"\n");
    out
}

// What a board answers, or the first bad line.
#[tactic(auto, unfolding(crate::specs::Text::text))]
pub fn text(read: Result<Board, BadInput>) -> Text
    ensures { result.items ≡ text (seen read) }
{
    match read {
        Ok(board) => quotes(board),
        Err(bad) => bad_text(bad.line),
    }
}

// What `feequote` answers to a whole input.
#[tactic(auto, unfolding(crate::specs::Text::feequote))]
pub fn quote(input: &[u8]) -> Text
    ensures { result.items ≡ feequote input.now }
{
    text(read(input))
}
