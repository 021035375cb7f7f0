// Verdicts: judging a rule on tables along an order.
// Judging checks tables, rule, order, walks the choices, and writes the verdict as 26 bytes.
#![tactic(auto)]

ghost use Rattle.std.specs.Prelude.{◌≡◌, length};
ghost use Rattle.answers.specs.Answer.{lent};
ghost use Rattle.verdicts.specs.Verdict.{Gives, verdict_of, judged};
ghost use Rattle.rules.specs.Code.Parsed.{Parses};
ghost use Rattle.verdicts.specs.Code.Judging.{Loaded, SomeRule, SomeText, ParsedFrom, KnownCounts, JudgesOn, JudgesInTurn, JudgesParsed};
ghost use Rattle.syntax.specs.Bytes.{Bytes};
ghost use Rattle.answers.specs.Written.{Answers};
ghost use Rattle.verdicts.specs.Code.Writing.{PutsVerdict};

use answers::Refusal;
use judging::walking;
use rules::{CHOICES_LIMIT, Parsed};
use tables::layout::WHOLE;

pub mod ruling;
pub mod sheet;

// The variables in turn: v1 is the variable 0.
const IN_TURN: [u8; CHOICES_LIMIT] = [0, 1, 2, 3, 4, 5, 6, 7];

// What judging says: a refusal, or the verdict's word.
#[derive(Clone, Copy)]
pub enum Outcome {
    Refused(Refusal),
    Held,
    Idle,
    Broken,
}

#[derive(Clone, Copy)]
pub struct Verdict {
    pub outcome: Outcome,
    pub full: u64,
    pub breaking: u64,
    pub first: [u8; 8],
    pub share: u8,
}

// The verdict of a parsed rule that is accepted.
fn of_accepted(words: &[u64], parsed: Parsed, order: &[u8]) -> Verdict
    requires loaded { Loaded words.now }
    requires some_rule { SomeRule parsed }
    ensures { (rule : Bytes) → ParsedFrom rule parsed → JudgesOn words.now rule order.now result }
{
    ruling::along(words, parsed, order)
}

// The verdict of what parsing a rule gave, on accepted tables, held as words, along an order.
pub fn of_parsed(words: &[u64], parsed: Result<Parsed, Refusal>, order: &[u8]) -> Verdict
    requires loaded { Loaded words.now }
    requires some_text { SomeText parsed }
    ensures { JudgesParsed words.now parsed order.now result }
{
    match parsed {
        Err(refusal) => ruling::refused(refusal),
        Ok(parsed) => of_accepted(words, parsed, order),
    }
}

// The verdict of a rule's text on such tables.
pub fn on_tables(words: &[u64], rule: &[u8], order: &[u8]) -> Verdict
    requires { Loaded words.now }
    ensures { JudgesOn words.now rule.now order.now result }
{
    of_parsed(words, rules::parse(rule), order)
}

// The verdict of a parsed rule that is accepted along 1, 2, .. That is always an order, so nothing tests it.
fn accepted_in_turn(words: &[u64], parsed: Parsed) -> Verdict
    requires loaded { Loaded words.now }
    requires some_rule { SomeRule parsed }
    ensures { (rule : Bytes) → ParsedFrom rule parsed → JudgesInTurn words.now rule result }
{
    let count = parsed.count;
    ruling::ruled(walking::whole(words, parsed, &IN_TURN[..count]))
}

// The verdict of what parsing a rule gave, along 1, 2, ..
pub fn parsed_in_turn(words: &[u64], parsed: Result<Parsed, Refusal>) -> Verdict
    requires loaded { Loaded words.now }
    requires some_text { SomeText parsed }
    ensures { (rule : Bytes) → Parses rule parsed → JudgesInTurn words.now rule result }
{
    match parsed {
        Err(found) => ruling::refused(found),
        Ok(parsed) => accepted_in_turn(words, parsed),
    }
}

// The same of a rule's text.
pub fn in_turn(words: &[u64], rule: &[u8]) -> Verdict
    requires { Loaded words.now }
    ensures { JudgesInTurn words.now rule.now result }
{
    parsed_in_turn(words, rules::parse(rule))
}

// The verdict along 1, 2, .. of a rule whose counts are known already.
pub fn counted_in_turn(words: &[u64], rule: &[u8], full: u64, breaking: u64) -> Verdict
    requires loaded { Loaded words.now }
    requires known_counts { KnownCounts words.now rule.now full breaking }
    ensures { JudgesInTurn words.now rule.now result }
{
    match rules::parse(rule) {
        Err(e) => ruling::refused(e),
        Ok(parsed) => {
            let count = parsed.count;
            let listed = &IN_TURN[..count];
            ruling::ruled(walking::known(words, parsed, listed, full, breaking))
        }
    }
}

// Judging checks tables, rule, order.
pub fn decide(tables: &[u8], rule: &[u8], order: &[u8]) -> Verdict
    ensures { Gives (verdict_of tables.now rule.now order.now) result }
{
    let mut words = [0u64; WHOLE];
    match tables::load(tables, &mut words) {
        Err(e) => ruling::refused(e),
        Ok(()) => on_tables(&words, rule, order),
    }
}

// Writes the verdict with that word, or says that the lent output is too short for it.
fn put(out: &mut [u8], word: u8, verdict: Verdict) -> Result<usize, Refusal>
    ensures { PutsVerdict out.old out.new word verdict result }
{
    let mut sheet = [0u8; sheet::VERDICT];
    let n = sheet::write(word, verdict, &mut sheet);
    answers::lend(&sheet[..n], out)
}

// Judges the rule and writes the verdict to the lent output. 17 follows 18, and a refusal writes nothing.
pub fn judge(tables: &[u8], rule: &[u8], order: &[u8], out: &mut [u8]) -> Result<usize, Refusal>
    ensures { Answers (lent (length out.old) (judged tables.now rule.now order.now)) out.old out.new result }
{
    let found = decide(tables, rule, order);
    let outcome = found.outcome;
    match outcome {
        Outcome::Refused(e) => Err(e),
        _ => put(out, sheet::word_of(outcome), found),
    }
}
