// What a call has written: the numbers in its bytes, read and printed.
// A word is 8 bytes, lowest byte first.
ghost use Rattle.std.specs.Prelude.{◌+◌, ◌≤◌, length};

use std::io;
use std::io::{Stdout, Write};
use verdicts::sheet;

// The word whose lowest byte stands at `at`.
pub fn word(out: &[u8], at: usize) -> u64
    requires { at + 8 ≤ length out.now }
{
    out[at..at + 8]
        .iter()
        .rev()
        .fold(0, |w, b| (w << 8) | *b as u64)
}

// Prints the full and the breaking of the verdict that `out` begins with, with that sign between them.
pub fn print_counts(stdout: &mut Stdout, out: &[u8], sign: char) -> io::Result<()>
    requires { 17 ≤ length out.now }
{
    write!(
        stdout,
        "{}{sign}{}",
        word(out, sheet::FULL),
        word(out, sheet::BREAKING)
    )
}

// `refused N`.
pub fn print_refused(stdout: &mut Stdout, reply: u32) -> io::Result<()> {
    write!(stdout, "refused {}", reply / 65536)
}
