// Writing a verdict as 26 bytes: its word, full and breaking as words of 8 bytes, the choice, the share.
ghost use Rattle.std.specs.Prelude.{◌≡◌, ◌+◌, ◌≤◌, length};
ghost use Rattle.tables.specs.Bytes.{lowest_first};
ghost use Rattle.texts.specs.Code.Overwritten.{Overwritten, Behind};
ghost use Rattle.verdicts.specs.Verdict.{word_number, written};

use crate::{Outcome, Verdict};

// Where the parts of a verdict stand behind its word, and how many bytes it has.
pub const FULL: usize = 1;

pub const BREAKING: usize = 9;

pub const FIRST: usize = 17;

pub const SHARE: usize = 25;

pub const VERDICT: usize = 26;

// The number of a verdict's word; a refusal has none.
pub fn word_of(outcome: Outcome) -> u8
    ensures { result ≡ word_number outcome }
{
    match outcome {
        Outcome::Refused(_) => 255,
        Outcome::Held => 0,
        Outcome::Idle => 1,
        Outcome::Broken => 2,
    }
}

// Writes a word behind the first n bytes, as 8 bytes, lowest byte first.
pub fn word_behind(n: usize, w: u64, out: &mut [u8])
    requires { n + 8 ≤ length out.old }
    ensures { Behind n (lowest_first 8 w) out.old out.new }
{
    texts::add(n, &w.to_le_bytes(), out);
}

// Writes the verdict with that word over the beginning of the lent bytes.
pub fn write(word: u8, verdict: Verdict, out: &mut [u8]) -> usize
    requires { 26 ≤ length out.old }
    ensures { Overwritten (written word verdict) out.old out.new result }
{
    out[0] = word;
    word_behind(FULL, verdict.full, out);
    word_behind(BREAKING, verdict.breaking, out);
    let first = verdict.first;
    texts::put(&first, &mut out[FIRST..]);
    out[SHARE] = verdict.share;
    VERDICT
}
