// Reads commands from standard input, one to a line, and prints the answer to each.
// A line that is longer than 80,000 bytes, or that is no command, is answered `?`.
#![tactic(auto)]

mod calls;
mod commands;
mod fields;
mod output;
mod page;
mod session_calls;

ghost use Rattle.std.specs.Prelude.{◌≡◌, ◌≤◌, length, IfOk, IfSome};

use std::io;
use std::io::{Read, Stdin, Stdout};

// What is still to be read of the input lies in a buffer from `from` up to `have`.
#[derive(Clone, Copy)]
struct Window {
    from: usize,
    have: usize,
    // The line at `from` is the rest of one that was too long.
    long: bool,
}

fn main(rt: HostRuntime) -> io::Result<()> {
    let mut stdin = rt.stdin();
    let mut stdout = rt.stdout();
    let mut space = [0u8; 80001];
    let buffer: &mut [u8] = &mut space;
    let mut w = Window {
        from: 0,
        have: 0,
        long: false,
    };
    // A proved loop has to end, and nothing says that the input does.
    for _ in 0..u64::MAX {
        let Some(next) = turn(&mut stdin, &mut stdout, buffer, w)? else {
            return Ok(());
        };
        w = next;
    }
    Ok(())
}

// One line is answered, or room is made, or more is read; no window is left at the input's end.
fn turn(
    stdin: &mut Stdin,
    stdout: &mut Stdout,
    buffer: &mut [u8],
    w: Window,
) -> io::Result<Option<Window>>
    requires { (w.from ≤ w.have) × (w.have ≤ length buffer.old) }
    ensures ok { IfOk result (λ next. IfSome next (λ w. (w.from ≤ w.have) × (w.have ≤ length buffer.new))) }
    ensures kept { length buffer.new ≡ length buffer.old }
{
    let Window { from, have, long } = w;
    let end = texts::scan::find(buffer, from, have, b'\n');
    if end < have {
        commands::answer(stdout, &buffer[from..end], long)?;
        return Ok(Some(Window {
            from: end + 1,
            have,
            long: false,
        }));
    }
    if from > 0 {
        buffer.copy_within(from..have, 0);
        return Ok(Some(Window {
            from: 0,
            have: have - from,
            long,
        }));
    }
    if have == buffer.len() {
        return Ok(Some(Window {
            from: 0,
            have: 0,
            long: true,
        }));
    }
    fill(stdin, stdout, buffer, have, long)
}

// Reads behind the first `have` bytes. At the input's end they are the last line, if any.
fn fill(
    stdin: &mut Stdin,
    stdout: &mut Stdout,
    buffer: &mut [u8],
    have: usize,
    long: bool,
) -> io::Result<Option<Window>>
    requires { have ≤ length buffer.old }
    ensures ok { IfOk result (λ next. IfSome next (λ w. (w.from ≤ w.have) × (w.have ≤ length buffer.new))) }
    ensures kept { length buffer.new ≡ length buffer.old }
{
    let more = stdin.read(&mut buffer[have..])?;
    if more == 0 {
        if have > 0 || long {
            commands::answer(stdout, &buffer[..have], long)?;
        }
        return Ok(None);
    }
    Ok(Some(Window {
        from: 0,
        have: have + more,
        long,
    }))
}
