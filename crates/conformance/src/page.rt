// The verdict on a page, printed from the bytes that the tracker's call writes, as `page T PAGE` asks for it.
// A line is its word, its counts, its share and its choice; the page has walks in the place of the last two.
ghost use Rattle.std.specs.Prelude.{◌≤◌, length};

use crate::fields::print_bytes;
use crate::output::print_counts;
use pages::{PAGE_HEAD, PAGE_LIMIT};
use std::io;
use std::io::{Stdout, Write};
use verdicts::sheet;

// Prints a page that has n bytes.
pub fn print_page(stdout: &mut Stdout, out: &[u8], n: usize) -> io::Result<()>
    requires { 850 ≤ length out.now }
{
    print_result(stdout, out, ' ')?;
    write!(stdout, " {}", out[PAGE_HEAD - 1])?;
    for k in 0..PAGE_LIMIT {
        let at = PAGE_HEAD + sheet::VERDICT * k;
        if n <= at {
            return Ok(());
        }
        stdout.write_all(b" ")?;
        print_verdict(stdout, &out[at..])?;
    }
    Ok(())
}

// Prints the verdict that `out` begins with.
fn print_verdict(stdout: &mut Stdout, out: &[u8]) -> io::Result<()>
    requires { 26 ≤ length out.now }
{
    print_result(stdout, out, ':')?;
    write!(stdout, ":{}:", out[sheet::SHARE])?;
    print_bytes(stdout, &out[sheet::FIRST..sheet::SHARE])
}

// Prints the word, full and breaking that `out` begins with, with that sign between them.
fn print_result(stdout: &mut Stdout, out: &[u8], sign: char) -> io::Result<()>
    requires { 17 ≤ length out.now }
{
    let word = match out[0] {
        0 => "held",
        1 => "idle",
        _ => "broken",
    };
    write!(stdout, "{word}{sign}")?;
    print_counts(stdout, out, sign)
}
