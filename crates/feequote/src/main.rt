// Reads depth rates and targets from standard input and writes the quotes, or the first bad line
// (document 01, case M). The text that is written for an input is `quote_board`'s definition
// `feequote`; here stand the calls that read and write.
#![tactic(auto)]

ghost use Rattle.std.specs.Prelude.{◌≡◌, OnOk, IfOk, IfErr};
ghost use Rattle.std.specs.Io.KnownBytes.{Appends, IsAtEnd, Keeps};
ghost use Rattle.feequote.specs.Reads.{Fed, TextOf, TextOfSome, Quoted};

use quote_board::{Text, text};
use quote_lines::reader::Reader;
use std::io::{Read, Write};
use std::process::ExitCode;
use std::{fmt, io};

// What went wrong, as `main` says it.
#[derive(Clone, Copy, Debug, PartialEq, Eq)]
enum Failure {
    Unread,
    Unwritten,
}

impl fmt::Display for Failure {
    fn fmt<W: fmt::Write>(&self, f: &mut fmt::Formatter<W>) -> fmt::Result {
        match self {
            Failure::Unread => f.write_str("standard input cannot be read"),
            Failure::Unwritten => f.write_str("standard output cannot be written"),
        }
    }
}

// One read: how many bytes it gave, 0 at the end of the input.
#[tactic(auto, using(crate::proofs::Feeds::fed_kept))]
fn read_some<I: Read>(input: &mut I, reader: &mut Reader) -> Result<usize, Failure>
    ensures fed { Fed (I.remaining input.old) (I.remaining input.new) reader.old reader.new }
    ensures end { result ≡ Ok 0 → IsAtEnd (I.remaining input.new) }
{
    let mut buf = [0; 65536];
    let Ok(n) = input.read(&mut buf) else {
        return Err(Failure::Unread);
    };
    reader.feed(&buf[..n]);
    Ok(n)
}

// A proved loop has to end, and nothing says that the input does. So the loop counts its turns, to a
// number that no run comes to.
#[tactic(auto, using(crate::proofs::Feeds::fed_first, crate::proofs::Feeds::fed_on))]
fn read_all<I: Read>(input: &mut I, reader: &mut Reader) -> Result<(), Failure>
    ensures fed { Fed (I.remaining input.old) (I.remaining input.new) reader.old reader.new }
    ensures end { OnOk result (IsAtEnd (I.remaining input.new)) }
{
    for _ in 0..u64::MAX {
        if read_some(input, reader)? == 0 {
            return Ok(());
        }
    }
    Err(Failure::Unread)
}

// Reads the input: what `feequote` answers to it.
#[tactic(auto, using(crate::proofs::Feeds::quoted))]
fn quote<I: Read>(input: &mut I) -> Result<Text, Failure>
    ensures { IfOk result (λ t. TextOf (I.remaining input.old) t.items) }
{
    let mut reader = Reader::new();
    read_all(input, &mut reader)?;
    Ok(text(reader.finish()))
}

// The text of some input, to the output.
fn print<O: Write>(output: &mut O, text: &[u8]) -> io::Result<()>
    requires { TextOfSome text.now }
    ensures { OnOk result (Appends (O.contents output.old) (O.contents output.new) text.now) }
{
    output.write_all(text)
}

// Reads the input and prints what `feequote` answers to it.
fn run<I: Read, O: Write>(input: &mut I, output: &mut O) -> Result<(), Failure>
    ensures ok { OnOk result (Quoted (I.remaining input.old) (O.contents output.old) (O.contents output.new)) }
    ensures unread { IfErr result
        (λ e. e ≡ Failure.Unread → Keeps (O.contents output.old) (O.contents output.new)) }
{
    let text = quote(input)?;
    print(output, &text).map_err(|_| Failure::Unwritten)
}

fn main(rt: HostRuntime) -> ExitCode {
    match run(&mut rt.stdin(), &mut rt.stdout()) {
        Ok(()) => ExitCode::SUCCESS,
        Err(failure) => {
            let _ = eprintln!(rt; "feequote: {failure}");
            ExitCode::FAILURE
        }
    }
}
