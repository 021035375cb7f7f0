// A state's parts: where its rule ends, its verdict, and its rule behind that.
// The verdict is given afresh where the rule mentions sessions, and copied where it does not.
ghost use Rattle.std.specs.Prelude.{◌≡◌, ◌++◌, ◌+◌, ◌≤◌, length};
ghost use Rattle.rules.specs.Accept.{rule_limit};
ghost use Rattle.syntax.specs.Bytes.{Bytes};
ghost use Rattle.tables.specs.Bytes.{lowest_first};
ghost use Rattle.texts.specs.Code.Overwritten.{Added};
ghost use Rattle.verdicts.specs.Code.Judging.{Loaded, SomeRule, ParsedFrom};
ghost use Rattle.sessions.specs.Code.Laying.{rule_end, Front, PutsCurrent, PutsVerdict};

use crate::{FRONT, HEAD};
use rules::Parsed;
use verdicts::sheet;

// Where the rule of a state ends, where the state is not cut short.
pub fn rule_end(state: &[u8]) -> Option<usize>
    ensures { result ≡ rule_end state.now }
{
    if state.len() < FRONT {
        return None;
    }
    let end = FRONT + u16::from_le_bytes([state[HEAD], state[HEAD + 1]]) as usize;
    if state.len() < end {
        return None;
    }
    Some(end)
}

// Writes the verdict of an accepted rule, in the order 1, 2, .., over the beginning of the lent bytes.
pub fn put_current(words: &[u64], parsed: Parsed, out: &mut [u8]) -> usize
    requires loaded { Loaded words.now }
    requires some_rule { SomeRule parsed }
    requires in_bounds { 26 ≤ length out.old }
    ensures puts_current { (rule : Bytes) → ParsedFrom rule parsed → PutsCurrent words.now rule out.old out.new result }
    ensures value { result ≡ 26 }
{
    let verdict = verdicts::parsed_in_turn(words, Ok(parsed));
    let outcome = verdict.outcome;
    sheet::write(sheet::word_of(outcome), verdict, out)
}

// Writes the verdict after a change: that of the rule in front on the tables that the words hold now, or the one in front.
pub fn put_verdict(words: &[u64], parsed: Parsed, front: &[u8], out: &mut [u8]) -> usize
    requires loaded { Loaded words.now }
    requires front { Front front.now parsed }
    requires in_bounds { 26 ≤ length out.old }
    ensures puts_verdict { PutsVerdict words.now front.now out.old out.new result }
    ensures value { result ≡ 26 }
{
    if mentions::sessions(&front[FRONT..]) {
        return put_current(words, parsed, out);
    }
    texts::put(&front[..HEAD], out)
}

// Adds the rule's length and the rule behind the first n bytes.
pub fn add_rule(n: usize, rule: &[u8], out: &mut [u8]) -> usize
    requires { (n + 2 + length rule.now ≤ length out.old) × (length rule.now ≤ rule_limit) }
    ensures { Added n (lowest_first 2 (length rule.now) ++ rule.now) out.old out.new result }
{
    let a = texts::add(n, &(rule.len() as u16).to_le_bytes(), out);
    texts::add(a, rule, out)
}
