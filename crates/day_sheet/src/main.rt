// The listing program: prints the day sheet of `tables.bin` and `rules.txt` in the folder that it
// runs in. Each line is made by crate `sheets`; here are only the files and the printing.
// Where the sheet cannot be written whole it stops, says so on standard error and ends with status 1.
#![tactic(auto)]

ghost use Rattle.std.specs.Prelude.{◌≤◌, length, IfSome};
ghost use Rattle.verdicts.specs.Code.Judging.{Loaded};
ghost use Rattle.sheets.specs.Sheet.{rules_limit};

use sheets::turns::Turn;
use sheets::{LINE_ROOM, RULES_LIMIT, total, turns};
use std::fs::File;
use std::io;
use std::io::{ErrorKind, Read, Stdout, Write};
use std::process::ExitCode;

fn main(rt: HostRuntime) -> ExitCode {
    let Ok(()) = print_files(&rt) else {
        let _ = eprintln!(rt; "day_sheet: the sheet could not be written whole");
        return ExitCode::FAILURE;
    };
    ExitCode::SUCCESS
}

// Prints the sheet of the two files; an error where it is not written whole.
fn print_files(rt: &HostRuntime) -> io::Result<()> {
    // The first 4,096 bytes of the tables suffice; rules of more than 32,768 bytes are too long.
    let mut tables = [0u8; 4096];
    let mut rules = [0u8; 32769];
    let mut stdout = rt.stdout();
    let t = read_file(rt, "tables.bin", &mut tables);
    let r = read_file(rt, "rules.txt", &mut rules);
    let Some(n) = t else {
        return stdout.write_all(b"no tables.bin\n");
    };
    let Some(m) = r else {
        return stdout.write_all(b"no rules.txt\n");
    };
    print_sheet(&mut stdout, &tables[..n], &rules[..m])
}

// Reads the first bytes of a file; how many, where it can be read.
fn read_file(rt: &HostRuntime, path: &str, out: &mut [u8]) -> Option<usize>
    ensures { IfSome result (λ n. n ≤ length out.new) }
{
    let mut file = File::open(rt, path).ok()?;
    read_to_end(&mut file, out)
}

// Reads until the file ends or the lent bytes are full.
fn read_to_end(file: &mut File, out: &mut [u8]) -> Option<usize>
    ensures { IfSome result (λ n. n ≤ length out.new) }
{
    let mut n = 0;
    while n < out.len() {
        let more = file.read(&mut out[n..]).ok()?;
        if more == 0 {
            return Some(n);
        }
        n += more;
    }
    Some(n)
}

// Prints the sheet; an error where a line is not written. The tables are read once.
fn print_sheet(stdout: &mut Stdout, tables: &[u8], rules: &[u8]) -> io::Result<()> {
    if rules.len() > RULES_LIMIT {
        return print_only_line(stdout, tables, rules);
    }
    match tables::read(tables) {
        Ok(words) => print_lines(stdout, &words, rules),
        Err(_) => print_only_line(stdout, tables, rules),
    }
}

// The sheet of refused tables, or of rules that are too long, is its first line.
fn print_only_line(stdout: &mut Stdout, tables: &[u8], rules: &[u8]) -> io::Result<()> {
    let mut line = [0u8; LINE_ROOM];
    let Ok(n) = sheets::line(tables, rules, 1, &mut line) else {
        return Err(io::Error::from(ErrorKind::InvalidData));
    };
    print_line(stdout, &line[..n])
}

// The line of each rule, which is judged for it and not again, and the total of them.
fn print_lines(stdout: &mut Stdout, words: &[u64], rules: &[u8]) -> io::Result<()>
    requires loaded { Loaded words.now }
    requires rules_len_bound { length rules.now ≤ rules_limit }
{
    let mut at = 0;
    let mut total = total::no_lines();
    loop {
        let mut line = [0u8; LINE_ROOM];
        let Turn { n, next } = turns::next_line(words, rules, at, total, &mut line);
        print_line(stdout, &line[..n])?;
        let Some(reached) = next else {
            return Ok(());
        };
        at = reached.at;
        total = reached.total;
    }
}

// Prints a line with its byte 10; an error where it is not written.
fn print_line(stdout: &mut Stdout, line: &[u8]) -> io::Result<()> {
    stdout.write_all(line)?;
    stdout.write_all(b"\n")
}
