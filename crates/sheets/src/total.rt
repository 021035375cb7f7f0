// The foot of the day sheet: what its lines come to, and how that is written.
// The four words are those of the lines' outcomes.
ghost use Rattle.std.specs.Prelude.{◌≡◌, ◌≤◌, length};
ghost use Rattle.texts.specs.Code.Overwritten.{Overwritten};
ghost use Rattle.sheets.specs.Sheet.{rules_limit};
ghost use Rattle.sheets.specs.Total.{total_text};
ghost use Rattle.sheets.specs.Code.Lines.{line_room};
ghost use Rattle.sheets.specs.Code.Turns.{no_lines, counted, others_text, Earlier};

use crate::text::{labelled, two};
use verdicts::Outcome;

// How many lines there are, and how many carry each word.
#[derive(Clone, Copy)]
pub struct Total {
    pub lines: usize,
    pub held: usize,
    pub idle: usize,
    pub broken: usize,
    pub refused: usize,
}

// The total before the first line.
pub fn no_lines() -> Total
    ensures { result ≡ no_lines }
{
    Total {
        lines: 0,
        held: 0,
        idle: 0,
        broken: 0,
        refused: 0,
    }
}

// One line more, with this outcome.
pub fn count(t: Total, outcome: Outcome) -> Total
    requires { Earlier rules_limit t }
    ensures { result ≡ counted outcome t }
{
    let mut total = t;
    total.lines += 1;
    match outcome {
        Outcome::Refused(_) => total.refused += 1,
        Outcome::Held => total.held += 1,
        Outcome::Idle => total.idle += 1,
        Outcome::Broken => total.broken += 1,
    }
    total
}

// The line of a total.
pub fn write(t: Total, out: &mut [u8]) -> usize
    requires { line_room ≤ length out.old }
    ensures { Overwritten (total_text t) out.old out.new result }
{
    let n = two(b"total ", t.lines as u64, b" held ", t.held as u64, out);
    let m = others(t, &mut out[n..]);
    n + m
}

// The words behind held.
fn others(t: Total, out: &mut [u8]) -> usize
    requires { 100 ≤ length out.old }
    ensures { Overwritten (others_text t) out.old out.new result }
{
    let n = two(b" idle ", t.idle as u64, b" broken ", t.broken as u64, out);
    let m = labelled(b" refused ", t.refused as u64, &mut out[n..]);
    n + m
}
