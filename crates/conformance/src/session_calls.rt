// A day of calls: the start, and then each field's open or close on the state before it.
// `o:USER:WORD` opens, `c:NUMBER` closes; a field prints `FULL:BREAKING`, or `rN` where the call is refused.
ghost use Rattle.std.specs.Prelude.{◌≡◌, ◌≤◌, length, IfOk};

use crate::calls::{next_state, untouched};
use crate::fields::{MOST, word_of};
use crate::output::{print_counts, print_refused};
use changes::Change;
use std::io;
use std::io::{Stdout, Write};

// The field of the first call.
const FIRST: usize = 3;

// A number, which a call takes.
fn closing(number: &[u8]) -> Option<Change> {
    let n = protocol::read_number(number, MOST)?;
    Some(Change::Closing(n as u32))
}

// A user's number, a colon and a word.
fn opening(text: &[u8]) -> Option<Change> {
    let colon = text.iter().position(|c| *c == b':')?;
    let user = protocol::read_number(&text[..colon], MOST)?;
    let roles = word_of(&text[colon + 1..])?;
    Some(Change::Opening {
        user: user as u32,
        roles,
    })
}

// What a field asks for.
fn change(text: &[u8]) -> Option<Change> {
    match text {
        [b'o', b':', rest @ ..] => opening(rest),
        [b'c', b':', rest @ ..] => closing(rest),
        _ => None,
    }
}

// What field k of the line asks for.
pub fn change_in(line: &[u8], k: usize) -> Option<Change> {
    let field = texts::field(line, k)?;
    change(&line[field.start..field.end])
}

// Whether every field behind the rule asks for a call. A line has no more fields than bytes, and one.
pub fn well_formed(line: &[u8]) -> bool {
    for k in FIRST..=line.len() {
        let Some(field) = texts::field(line, k) else {
            return true;
        };
        if change(&line[field.start..field.end]).is_none() {
            return false;
        }
    }
    true
}

// Prints what the start and the calls give, with one blank between them.
pub fn follow(stdout: &mut Stdout, line: &[u8], tables: &[u8], rule: &[u8]) -> io::Result<()> {
    let mut state = untouched();
    let reply = rcl2000::sessions_start(tables, rule, &mut state);
    if 65536 <= reply {
        return print_refused(stdout, reply);
    }
    print_counts(stdout, &state, ':')?;
    let mut n = reply as usize;
    for k in FIRST..=line.len() {
        let Some(change) = change_in(line, k) else {
            return Ok(());
        };
        n = next(stdout, &mut state, n, change)?;
    }
    Ok(())
}

// Makes a call on the first n bytes, and prints what it gives; how many bytes the next state has.
fn next(stdout: &mut Stdout, state: &mut [u8], n: usize, change: Change) -> io::Result<usize>
    requires { (n ≤ 65536) × (length state.old ≡ 65536) }
    ensures ok { IfOk result (λ m. m ≤ 65536) }
    ensures kept { length state.new ≡ length state.old }
{
    let mut out = untouched();
    let reply = next_state(&state[..n], change, &mut out);
    if 65536 <= reply {
        write!(stdout, " r{}", reply / 65536)?;
        return Ok(n);
    }
    stdout.write_all(b" ")?;
    print_counts(stdout, &out, ':')?;
    let m = reply as usize;
    state[..m].copy_from_slice(&out[..m]);
    Ok(m)
}
