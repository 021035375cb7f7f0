// The lines of a sheet one after another: each rule is judged once, and the total goes along.
// Only for tables that are read already, and rules that are not too long.
ghost use Rattle.std.specs.Prelude.{◌≤◌, ◌<◌, length};
ghost use Rattle.verdicts.specs.Code.Judging.{Loaded};
ghost use Rattle.sheets.specs.Sheet.{rules_limit};
ghost use Rattle.sheets.specs.Code.Lines.{line_room};
ghost use Rattle.sheets.specs.Code.Turns.{SofarOn, Onward, JudgesNext, WritesNext, Turns, Totalled};

use crate::total::Total;
use crate::{text, total};
use verdicts::Verdict;

// A rule that is judged: its verdict, where the next line begins, and the total with this one.
#[derive(Clone, Copy)]
struct Judged {
    verdict: Verdict,
    at: usize,
    total: Total,
}

// How far the lines have come: where the next one begins, and their total.
#[derive(Clone, Copy)]
pub struct Reached {
    pub at: usize,
    pub total: Total,
}

// A line that is written: its length, and how far the lines have come with it; none behind the last one, which is the total.
#[derive(Clone, Copy)]
pub struct Turn {
    pub n: usize,
    pub next: Option<Reached>,
}

// Writes the line behind those so far, which have this total: that of the rule which begins at a byte of the rules, or
// the total where they end there.
pub fn next_line(words: &[u64], rules: &[u8], at: usize, total: Total, out: &mut [u8]) -> Turn
    requires loaded { Loaded words.now }
    requires sofar_on { SofarOn words.now rules.now at total }
    requires line_room_in_bounds { line_room ≤ length out.old }
    ensures writes_next { WritesNext words.now rules.now total out.old out.new result.n }
    ensures turns { Turns words.now rules.now at total result.next }
{
    if rules.len() <= at {
        let n = total::write(total, out);
        return Turn { n, next: None };
    }
    let judged = judge_at(words, rules, at, total);
    let n = text::line_of(total.lines + 1, judged.verdict, out);
    Turn {
        n,
        next: Some(Reached {
            at: judged.at,
            total: judged.total,
        }),
    }
}

// The total of all lines, each judged for it.
pub fn whole(words: &[u64], rules: &[u8]) -> Total
    requires loaded { Loaded words.now }
    requires rules_len_bound { length rules.now ≤ rules_limit }
    ensures { Totalled words.now rules.now result }
{
    let mut at = 0;
    let mut total = total::no_lines();
    while at < rules.len() {
        let judged = judge_at(words, rules, at, total);
        at = judged.at;
        total = judged.total;
    }
    total
}

fn judge_at(words: &[u64], rules: &[u8], at: usize, total: Total) -> Judged
    requires loaded { Loaded words.now }
    requires sofar_on { SofarOn words.now rules.now at total }
    requires at_in_bounds { at < length rules.now }
    ensures judges_next { JudgesNext words.now rules.now total result }
    ensures onward { Onward words.now rules.now at result.at result.total }
{
    let to = texts::line_end(rules, at);
    let verdict = verdicts::in_turn(words, &rules[at..to]);
    let outcome = verdict.outcome;
    let total = total::count(total, outcome);
    Judged {
        verdict,
        at: to + 1,
        total,
    }
}
