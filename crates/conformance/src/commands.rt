// The commands: each function prints the answer to one line, or gives none where a field is missing or malformed.
// What is no command is answered `?`. No command's function is inlined, so that the stack has the rooms of one command and not of all.
ghost use Rattle.std.specs.Prelude.{◌≤◌, length};

use crate::fields::{
    MOST, is_command, is_named, print_bytes, read_bytes, read_number, read_word, room,
};
use crate::{calls, session_calls};
use answers::Refusal;
use sheets::{LINE_ROOM, RULES_LIMIT};
use std::io;
use std::io::{Stdout, Write};

// Answers a line, or one that was too long.
pub fn answer(stdout: &mut Stdout, line: &[u8], long: bool) -> io::Result<()> {
    if long || 80000 < line.len() {
        return stdout.write_all(b"?\n");
    }
    match command(stdout, line) {
        Some(printed) => printed?,
        None => stdout.write_all(b"?")?,
    }
    stdout.write_all(b"\n")
}

// The command of a line: those of document 01. Every command has bytes in its first field.
fn command(stdout: &mut Stdout, line: &[u8]) -> Option<io::Result<()>>
    requires { length line.now ≤ 80000 }
{
    let mut first = room();
    let first = read_bytes(line, 1, &mut first)?;
    if is_command(line, b"tables", 2) {
        Some(print_number(stdout, number(tables::read(first).err())))
    } else if is_command(line, b"rule", 2) {
        Some(print_number(stdout, number(rules::check(first).err())))
    } else if is_command(line, b"reduce", 3) {
        calls::lend(stdout, line, 2, |out| rcl2000::reduce(first, out))
    } else if is_command(line, b"rebuild", 3) {
        calls::lend(stdout, line, 2, |out| rcl2000::rebuild(first, out))
    } else if is_command(line, b"judge", 5) {
        judge(stdout, line, first)
    } else if is_command(line, b"sheet", 3) {
        sheet(stdout, line, first)
    } else {
        later(stdout, line, first)
    }
}

// The commands of document 02.
fn later(stdout: &mut Stdout, line: &[u8], first: &[u8]) -> Option<io::Result<()>>
    requires { length line.now ≤ 80000 }
{
    if is_command(line, b"page", 3) {
        page(stdout, line, first)
    } else if is_command(line, b"forecast", 3) {
        forecast(stdout, line, first)
    } else if is_command(line, b"rankstep", 2) {
        Some(print_number(stdout, rcl2000::rank_step(first)))
    } else if is_named(line, b"sessions") {
        day(stdout, line, first)
    } else if is_command(line, b"session", 4) {
        session(stdout, line, first)
    } else if is_command(line, b"line", 6) {
        listed(stdout, line, first)
    } else {
        None
    }
}

fn print_number(stdout: &mut Stdout, n: u32) -> io::Result<()> {
    write!(stdout, "{n}")
}

// The refusal's number, or 0.
fn number(refusal: Option<Refusal>) -> u32 {
    refusal.map_or(0, u32::from)
}

// `judge T R ORDER LEN`: the tracker's number and the lent output, which held a5 throughout.
#[inline(never)]
fn judge(stdout: &mut Stdout, line: &[u8], tables: &[u8]) -> Option<io::Result<()>>
    requires { length line.now ≤ 80000 }
{
    let mut rule = room();
    let mut order = room();
    let rule = read_bytes(line, 2, &mut rule)?;
    let order = read_bytes(line, 3, &mut order)?;
    calls::lend(
        stdout,
        line,
        4,
        |out| rcl2000::judge(tables, rule, order, out),
    )
}

// `sheet T RULES`: everything that the listing program prints.
#[inline(never)]
fn sheet(stdout: &mut Stdout, line: &[u8], tables: &[u8]) -> Option<io::Result<()>>
    requires { length line.now ≤ 80000 }
{
    let mut rules = room();
    let rules = read_bytes(line, 2, &mut rules)?;
    Some(print_sheet(stdout, tables, rules))
}

// `page T PAGE`.
#[inline(never)]
fn page(stdout: &mut Stdout, line: &[u8], tables: &[u8]) -> Option<io::Result<()>>
    requires { length line.now ≤ 80000 }
{
    let mut page = room();
    let page = read_bytes(line, 2, &mut page)?;
    Some(calls::judge_page(stdout, tables, page))
}

// `forecast T RULE`.
#[inline(never)]
fn forecast(stdout: &mut Stdout, line: &[u8], tables: &[u8]) -> Option<io::Result<()>>
    requires { length line.now ≤ 80000 }
{
    let mut rule = room();
    let rule = read_bytes(line, 2, &mut rule)?;
    Some(calls::forecast(stdout, tables, rule))
}

// `sessions T R OP..`: the start and then each call on the state before it.
#[inline(never)]
fn day(stdout: &mut Stdout, line: &[u8], tables: &[u8]) -> Option<io::Result<()>>
    requires { length line.now ≤ 80000 }
{
    let mut rule = room();
    let rule = read_bytes(line, 2, &mut rule)?;
    if !session_calls::well_formed(line) {
        return None;
    }
    Some(session_calls::follow(stdout, line, tables, rule))
}

// `session STATE OP LEN`: one call on any bytes.
#[inline(never)]
fn session(stdout: &mut Stdout, line: &[u8], state: &[u8]) -> Option<io::Result<()>> {
    let change = session_calls::change_in(line, 2)?;
    calls::lend(stdout, line, 3, |out| calls::next_state(state, change, out))
}

// `line T READER RULES PLACE LEN`: one line of the day sheet for a reader, whose users are a word.
#[inline(never)]
fn listed(stdout: &mut Stdout, line: &[u8], tables: &[u8]) -> Option<io::Result<()>>
    requires { length line.now ≤ 80000 }
{
    let mut rules = room();
    let reader = read_word(line, 2)?;
    let rules = read_bytes(line, 3, &mut rules)?;
    let place = read_number(line, 4, MOST)?;
    calls::lend(stdout, line, 5, |out| {
        rcl2000::sheet_line(tables, reader, rules, place, out)
    })
}

// Prints the lines, each with its byte 10: no more than the rules have bytes, and the total behind them.
fn print_sheet(stdout: &mut Stdout, tables: &[u8], rules: &[u8]) -> io::Result<()> {
    for place in 1..=RULES_LIMIT + 1 {
        let mut line = [0u8; LINE_ROOM];
        match sheets::line(tables, rules, place, &mut line) {
            Ok(0) | Err(_) => return Ok(()),
            Ok(n) => print_bytes(stdout, &line[..n])?,
        }
        stdout.write_all(b"0a")?;
    }
    Ok(())
}
