// Inputs that `feequote` has to answer; each answer is followed by a line `--`. What is written is held to the
// file stdout, which was worked out by hand from document 01.
#![tactic(auto)]

use quote_lines::reader::Reader;
use std::io;

fn close(rt: &impl Print, out: &[u8]) -> io::Result<()> {
    rt.write_all(out)?;
    rt.write_all(b"--\n")
}

fn answer(rt: &impl Print, input: &[u8]) -> io::Result<()> {
    close(rt, &quote_board::quote(input))
}

// An input that comes in parts, the middle one many times. The parts are no lists beside one another.
fn in_parts(
    rt: &impl Print,
    start: &[u8],
    middle: &[u8],
    times: u32,
    end: &[u8],
) -> io::Result<()> {
    let mut reader = Reader::new();
    reader.feed(start);
    for _ in 0..times {
        reader.feed(middle);
    }
    reader.feed(end);
    close(rt, &quote_board::text(reader.finish()))
}

// Case M, and inputs that are well-formed.
fn good(rt: &impl Print) -> io::Result<()> {
    answer(rt, b"D 2 -\nD 6 600\nD 12 300\nT 4\nT 9\n")?;
    answer(rt, b"")?;
    answer(rt, b"D 2 -\nD 6 600\nD 12 300\nT 4\nT 9")?;
    answer(rt, b"T 7\n")?;
    answer(rt, b"D 5 70\n")?;
    answer(rt, b"D 5 70\nT 4\nT 5\nT 6\nT 4294967295\n")?;
    answer(rt, b"D 3 9\nD 3 7\nD 8 2\nT 3\nT 8\n")?;
    answer(rt, b"D 0 0\nT 0\nT 0\n")?;
    answer(rt, b"D 4294967295 18446744073709551615\nT 4294967295\n")?;
    answer(rt, b"D 1 5\nD 2 -\nD 3 9\nD 4 4\nT 1\nT 2\nT 3\nT 4\nT 5\n")?;
    in_parts(rt, b"D ", b"0", 500, b"2 3\nT 2\n")?;
    in_parts(rt, b"D 2 ", b"0", 500, b"3\nT 2\n")?;
    in_parts(rt, b"D 2 3\nT ", b"0", 500, b"2\n")
}

// Lines that are ill-formed by a field.
fn bad_fields(rt: &impl Print) -> io::Result<()> {
    answer(rt, b"D 4294967296 3\n")?;
    answer(rt, b"T 4294967296\n")?;
    answer(rt, b"D 2 18446744073709551616\n")?;
    answer(rt, b"D 2 18446744073709551615\nD 3 99999999999999999999\n")?;
    answer(rt, b"D +2 3\n")?;
    answer(rt, b"D -2 3\n")?;
    answer(rt, b"D 2 -5\n")?;
    answer(rt, b"D 2 --\n")?;
    answer(rt, b"D - 3\n")?;
    answer(rt, b"T -\n")?;
    answer(rt, b"T 4x\n")?;
    answer(rt, b"D 2 3.0\n")?;
    answer(rt, b"D 0x2 3\n")?;
    answer(rt, b"d 2 3\n")?;
    answer(rt, b"t 4\n")?;
    answer(rt, b"X 2 3\n")?;
    answer(rt, b"DD 2 3\n")?;
    answer(rt, b"TT 4\n")
}

// Lines that are ill-formed by a space, another byte or the number of fields.
fn bad_spaces(rt: &impl Print) -> io::Result<()> {
    answer(rt, b"\n")?;
    answer(rt, b"D 2 3\n\nT 2\n")?;
    answer(rt, b"D 2 3\nT 2\n\n")?;
    answer(rt, b"D 2 - \n")?;
    answer(rt, b"D 2 3 \nT 2\n")?;
    answer(rt, b" D 2 3\n")?;
    answer(rt, b"D  2 3\n")?;
    answer(rt, b"D 2  3\n")?;
    answer(rt, b"T  4\n")?;
    answer(rt, b"T 4 \n")?;
    answer(rt, b"D\t2\t3\n")?;
    answer(rt, b"D 2 3\r\n")?;
    answer(rt, b"D 2 3\nT 2\r\n")?;
    answer(rt, b"D 2\0 3\n")?;
    answer(rt, b"D 2 3\nT 2\xff\n")?;
    answer(rt, b"\0")?;
    answer(rt, b"D 2 3\nT 2\n\xef\xbb\xbf")?;
    answer(rt, b" ")
}

fn bad_counts(rt: &impl Print) -> io::Result<()> {
    answer(rt, b"D")?;
    answer(rt, b"D\n")?;
    answer(rt, b"D ")?;
    answer(rt, b"D 2")?;
    answer(rt, b"D 2 ")?;
    answer(rt, b"D 2 3 4\n")?;
    answer(rt, b"T")?;
    answer(rt, b"T \n")?;
    answer(rt, b"T 4 5\n")?;
    answer(rt, b"D2 3\n")?;
    answer(rt, b"T4\n")
}

// Lines past a limit, out of order or after a bad line, and inputs just within the limits.
fn bad_order(rt: &impl Print) -> io::Result<()> {
    answer(rt, b"D 2 3\nT 2\nD 4 1\n")?;
    answer(rt, b"T 2\nT 3\nD 2 3\nX\n")?;
    answer(rt, b"D 6 3\nD 5 2\n")?;
    answer(rt, b"D 6 -\nD 5 -\nT 5\n")?;
    answer(rt, b"D 2 3\nbad\nD 1 9\nT 4\n")?;
    in_parts(rt, b"", b"D 2 3\n", 64, b"T 2\n")?;
    in_parts(rt, b"", b"D 2 3\n", 65, b"T 2\n")?;
    in_parts(rt, b"D 2 3\n", b"T 2\n", 64, b"")?;
    in_parts(rt, b"D 2 3\n", b"T 2\n", 65, b"")?;
    in_parts(rt, b"", b"D 2 3\n", 64, b"T 2\nD 2 3\n")
}

fn main(rt: HostRuntime) -> io::Result<()> {
    good(&rt)?;
    bad_fields(&rt)?;
    bad_spaces(&rt)?;
    bad_counts(&rt)?;
    bad_order(&rt)
}
