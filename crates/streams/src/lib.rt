// What the programs share: reading counts and bytes from standard input, and text for standard output.
#![tactic(auto)]

pub mod input;
pub mod text;

ghost use Rattle.std.specs.Prelude.{◌≡◌, ◌<◌, ◌^◌, take, OnOk, IfSome};

use std::fmt::{self, Display};
use text::Line;

// Standard output.
const STDOUT: i32 = 1;

pub fn write(text: &[u8]) {
    io::write_all(STDOUT, text);
}

// Input that ends early.
pub fn short_input() {
    write(b"short input\n");
}

// Writes a text of at most N bytes at once. Only this project's programs call it.
pub fn print<const N: usize, D: Display + Drop>(text: D)
    requires { N < 2 ^ 32 }
{
    // a line takes all that fits: an error could only be the text's own, and what was put in is written
    let _ = print_in(&mut Line::<N>::new(), text);
}

// The same by a line that is lent, whatever stood in it: all of a new line's room is cleared, which takes longer than a short text. Only
// this project's programs call it.
pub fn print_in<const N: usize, D: Display + Drop>(line: &mut Line<N>, text: D) -> fmt::Result
    requires { N < 2 ^ 32 }
    ensures { OnOk result (IfSome (D.output text) (λ printed. line.new ≡ take N printed)) }
{
    line.clear();
    let printed = line.print(text);
    write(line.as_slice());
    printed
}
