// The line of one rule. Each function writes its text over the beginning of the lent bytes, in two
// pieces: the second goes to the rest of the bytes behind the first.
ghost use Rattle.std.specs.Prelude.{◌++◌, ◌≤◌, ◌+◌, ◌*◌, ◌-◌, length, drop};
ghost use Rattle.syntax.specs.Bytes.{ascii};
ghost use Rattle.texts.specs.Code.Overwritten.{Overwritten};
ghost use Rattle.sheets.specs.Code.Lines.{line_room};
ghost use Rattle.sheets.specs.Line.{labelled, choices_from, counts_of, shared_of, says_of, line_text};

use answers::Refusal;
use verdicts::{Outcome, Verdict};

// The line of a verdict.
pub fn line_of(place: usize, v: Verdict, out: &mut [u8]) -> usize
    requires { line_room ≤ length out.old }
    ensures { Overwritten (line_text place v) out.old out.new result }
{
    let n = texts::decimal(place as u64, out);
    let m = says(v, &mut out[n..]);
    n + m
}

fn says(v: Verdict, out: &mut [u8]) -> usize
    requires { 480 ≤ length out.old }
    ensures { Overwritten (says_of v.outcome v) out.old out.new result }
{
    let outcome = v.outcome;
    match outcome {
        Outcome::Refused(e) => labelled(b" refused ", u32::from(e) as u64, out),
        Outcome::Held => shared(b" held ", v, out),
        Outcome::Idle => idle(v, out),
        Outcome::Broken => broken(v, out),
    }
}

fn idle(v: Verdict, out: &mut [u8]) -> usize
    requires { 100 ≤ length out.old }
    ensures { Overwritten (counts_of (ascii " idle ") v ++ ascii " -") out.old out.new result }
{
    let n = counts(b" idle ", v, out);
    let m = texts::put(b" -", &mut out[n..]);
    n + m
}

fn broken(v: Verdict, out: &mut [u8]) -> usize
    requires { 480 ≤ length out.old }
    ensures { Overwritten (shared_of (ascii " broken ") v ++ choices_from 1 v.first) out.old out.new result }
{
    let first = v.first;
    let n = shared(b" broken ", v, out);
    let m = choices(&first, 0, &mut out[n..]);
    n + m
}

// The word with the two counts, and the share.
fn shared(word: &[u8], v: Verdict, out: &mut [u8]) -> usize
    requires { (length word.now ≤ 10) × (100 ≤ length out.old) }
    ensures { Overwritten (shared_of word.now v) out.old out.new result }
{
    let n = counts(word, v, out);
    let m = labelled(b" ", v.share as u64, &mut out[n..]);
    n + m
}

fn counts(word: &[u8], v: Verdict, out: &mut [u8]) -> usize
    requires { (length word.now ≤ 10) × (60 ≤ length out.old) }
    ensures { Overwritten (counts_of word.now v) out.old out.new result }
{
    two(word, v.full, b" ", v.breaking, out)
}

// The items of the choice from variable k on, where v1 is variable 0.
fn choices(first: &[u8], k: usize, out: &mut [u8]) -> usize
    requires { (length first.now ≤ 8) × (43 * (length first.now - k) ≤ length out.old) }
    ensures { Overwritten (choices_from (k + 1) (drop k first.now)) out.old out.new result }
{
    if first.len() <= k {
        return 0;
    }
    let x = first[k];
    if x == 255 {
        return 0;
    }
    let n = choice(k + 1, x, out);
    let m = choices(first, k + 1, &mut out[n..]);
    n + m
}

fn choice(i: usize, x: u8, out: &mut [u8]) -> usize
    requires { 43 ≤ length out.old }
    ensures { Overwritten (labelled (ascii " v") i ++ labelled (ascii "=") x) out.old out.new result }
{
    two(b" v", i as u64, b"=", x as u64, out)
}

// Two numbers, each behind its text.
pub fn two(word: &[u8], x: u64, sign: &[u8], y: u64, out: &mut [u8]) -> usize
    requires { length word.now + length sign.now + 40 ≤ length out.old }
    ensures { Overwritten (labelled word.now x ++ labelled sign.now y) out.old out.new result }
{
    let n = labelled(word, x, out);
    let m = labelled(sign, y, &mut out[n..]);
    n + m
}

// A text and a number behind it.
pub fn labelled(word: &[u8], x: u64, out: &mut [u8]) -> usize
    requires { length word.now + 20 ≤ length out.old }
    ensures { Overwritten (labelled word.now x) out.old out.new result }
{
    let n = texts::put(word, out);
    let m = texts::decimal(x, &mut out[n..]);
    n + m
}
