// Decodes and encodes the cases on standard input: their number, and for each its kind, its operation, its file's bytes and
// its value's bytes after their counts. One line a case, written before the next is read.
#![tactic(auto)]

ghost use Rattle.std.specs.Prelude.{◌≤◌, length};

use cases::kinds::Kind;
use cases::operations::Operation;
use codings::Refused;
use streams::text::{Head, Hex, Line};
use streams::{input, print_in, short_input};

// The longest line: each file byte and each value byte takes two characters.
const LONGEST: usize = 262200;

// A case's line: its number, its answer, the file's bytes and the value's.
fn report<T>(
    number: usize,
    answer: &Result<T, Refused>,
    file: &[u8],
    value: &[u8],
    line: &mut Line<LONGEST>,
) {
    let answer = codings::number(answer);
    let head = Head { number, answer };
    // a line takes all that fits, and none of these fails: what was put in is written
    let _ = print_in(line, format_args!("{head} {} {}\n", Hex(file), Hex(value)));
}

// One case: its line shows what was decoded, or the value that was to be encoded.
fn play(
    k: usize,
    kind: Kind,
    operation: Operation,
    file: &mut [u8],
    value: &[u8],
    line: &mut Line<LONGEST>,
) {
    match operation {
        Operation::Decode => {
            let decoded = cases_decode::decode(kind, value, file);
            let shown = match &decoded {
                Ok(value) => value.as_slice(),
                Err(_) => b"",
            };
            report(k, &decoded, file, shown, line);
        }
        Operation::Encode => {
            let encoded = cases_encode::encode(kind, value, file);
            report(k, &encoded, file, value, line);
        }
        Operation::Unknown => {
            let refused: Result<(), Refused> = Err(cases_decode::other(kind, file));
            report(k, &refused, file, b"", line);
        }
    }
}

// Reads case k, plays it and writes its line; nothing where the input ends before all of it.
fn next(k: usize, file: &mut [u8], value: &mut [u8], line: &mut Line<LONGEST>) -> Option<()>
    requires { (65536 ≤ length file.old) × (65536 ≤ length value.old) }
{
    let mut head = [0u8; 2];
    input::fill(&mut head)?;
    let file = input::read_counted(file)?;
    let value = input::read_counted(value)?;
    let kind = Kind::from(head[0]);
    let operation = Operation::from(head[1]);
    play(k, kind, operation, file, value, line);
    Some(())
}

// So many cases; nothing where the input ends before the last of them.
fn play_all(n: usize, file: &mut [u8], value: &mut [u8], line: &mut Line<LONGEST>) -> Option<()>
    requires { (65536 ≤ length file.old) × (65536 ≤ length value.old) }
{
    for k in 1..=n {
        next(k, file, value, line)?;
    }
    Some(())
}

// All of standard input; nothing where it ends early.
fn play_input() -> Option<()> {
    let n = input::read_count()?;
    let mut file = io::large_buffer();
    let mut value = io::large_buffer();
    // one line for all cases: to clear its room takes far longer than a case
    let mut line = Line::new();
    play_all(n, &mut file, &mut value, &mut line)
}

fn main() {
    if play_input().is_none() {
        short_input();
    }
}
