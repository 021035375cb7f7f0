// The tracker's calls: each function makes one and prints what it says.
// Where a field of the line is malformed there is nothing to print.
ghost use Rattle.std.specs.Prelude.{◌≤◌, length};

use crate::fields::{print_bytes, read_length};
use crate::output::{print_refused, word};
use crate::page::print_page;
use changes::Change;
use forecasts::FORECAST;
use pages::PAGE_ROOM;
use std::io;
use std::io::{Stdout, Write};

// An output before it is lent: whatever a call does not write still holds a5.
pub fn untouched() -> [u8; 65536] {
    [0xa5; 65536]
}

// Makes a call that writes to a lent output, as long as field k says: the tracker's number and what the output holds.
// Not inlined, as the commands are not.
#[inline(never)]
pub fn lend<F: FnOnce(&mut [u8]) -> u32>(
    stdout: &mut Stdout,
    line: &[u8],
    k: usize,
    call: F,
) -> Option<io::Result<()>>
    requires { F.IsAlwaysCallable call }
{
    let mut output = untouched();
    let lent = read_length(line, k)?;
    let reply = call(&mut output[..lent]);
    Some(print_reply(stdout, reply, &output[..lent]))
}

fn print_reply(stdout: &mut Stdout, reply: u32, output: &[u8]) -> io::Result<()>
    requires { length output.now ≤ 65536 }
{
    write!(stdout, "{reply} ")?;
    print_bytes(stdout, output)
}

// The call that asks for this change.
pub fn next_state(state: &[u8], change: Change, output: &mut [u8]) -> u32 {
    match change {
        Change::Opening { user, roles } => rcl2000::session_open(state, user, roles, output),
        Change::Closing(session) => rcl2000::session_close(state, session, output),
    }
}

// `refused N POS`, or the fields of the page and of each line.
pub fn judge_page(stdout: &mut Stdout, tables: &[u8], page: &[u8]) -> io::Result<()> {
    let mut output = [0u8; PAGE_ROOM];
    let reply = rcl2000::judge_page(tables, page, &mut output);
    if 65536 <= reply {
        print_refused(stdout, reply)?;
        return write!(stdout, " {}", reply % 65536);
    }
    print_page(stdout, &output, reply as usize)
}

// `refused N`, or the formula's length and the ceiling.
pub fn forecast(stdout: &mut Stdout, tables: &[u8], rule: &[u8]) -> io::Result<()> {
    let mut output = [0u8; FORECAST];
    let reply = rcl2000::forecast(tables, rule, &mut output);
    if 65536 <= reply {
        return print_refused(stdout, reply);
    }
    write!(stdout, "{} {}", word(&output, 0), word(&output, 8))
}
