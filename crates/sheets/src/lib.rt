// The day sheet: each of its lines, made from tables, rules and the line's place.
// Nothing here reads files or prints.
#![tactic(auto)]

use answers::Refusal;

mod text;
pub mod total;
pub mod turns;

ghost use Rattle.std.specs.Prelude.{◌≡◌, ◌≤◌, ◌<◌, ◌+◌, eqb, length};
ghost use Rattle.answers.specs.Refusal.{number_of};
ghost use Rattle.syntax.specs.Bytes.{ascii};
ghost use Rattle.texts.specs.Pieces.{lines};
ghost use Rattle.texts.specs.Code.Overwritten.{Overwritten};
ghost use Rattle.verdicts.specs.Code.Judging.{Loaded};
ghost use Rattle.sheets.specs.Line.{labelled};
ghost use Rattle.sheets.specs.Sheet.{only, rules_limit, sheet_of, sheet_line};
ghost use Rattle.sheets.specs.Promise.{Lines};
ghost use Rattle.sheets.specs.Code.Lines.{line_room, LinesOn, RuleLineOn};

// No line has as many bytes.
pub const LINE_ROOM: usize = 512;

// Longer rules are not read.
pub const RULES_LIMIT: usize = 32768;

// The line at a place, from 1, without byte 10; no bytes at any other place. Behind the lines of the rules stands their
// total: every rule is judged for it. Whoever wants the whole sheet goes by `turns::next_line`.
pub fn line(tables: &[u8], rules: &[u8], place: usize, out: &mut [u8]) -> Result<usize, Refusal>
    ensures { Lines tables.now rules.now place out.old out.new result }
{
    let mut text = [0u8; LINE_ROOM];
    let n = write_line(tables, rules, place, &mut text);
    answers::lend(&text[..n], out)
}

// The sheet of refused tables.
fn refused_tables(e: Refusal, place: usize, out: &mut [u8]) -> usize
    requires { line_room ≤ length out.old }
    ensures { Overwritten (sheet_line (only (labelled (ascii "tables refused ") (number_of e))) place) out.old out.new result }
{
    if place != 1 {
        return 0;
    }
    text::labelled(b"tables refused ", u32::from(e) as u64, out)
}

// The sheet of rules that are too long.
fn long_rules(place: usize, out: &mut [u8]) -> usize
    requires { line_room ≤ length out.old }
    ensures { Overwritten (sheet_line (only (ascii "rules too long")) place) out.old out.new result }
{
    if place != 1 {
        return 0;
    }
    texts::put(b"rules too long", out)
}

// The line of any tables and rules. The tables are read once, and the rule of the line is parsed once.
fn write_line(tables: &[u8], rules: &[u8], place: usize, out: &mut [u8]) -> usize
    requires { line_room ≤ length out.old }
    ensures { Overwritten (sheet_line (sheet_of tables.now rules.now) place) out.old out.new result }
{
    match tables::read(tables) {
        Err(e) => refused_tables(e, place, out),
        Ok(words) => judged_line(&words, rules, place, out),
    }
}

// The line of accepted tables, held as words.
pub fn judged_line(words: &[u64], rules: &[u8], place: usize, out: &mut [u8]) -> usize
    requires loaded { Loaded words.now }
    requires line_room_in_bounds { line_room ≤ length out.old }
    ensures { LinesOn words.now rules.now place out.old out.new result }
{
    if RULES_LIMIT < rules.len() {
        return long_rules(place, out);
    }
    if place == 0 {
        return 0;
    }
    let Some(line) = texts::line(rules, place - 1) else {
        return foot(words, rules, place, out);
    };
    rule_line(words, &rules[line.start..line.end], place, out)
}

// The total, straight behind the lines; nothing further.
fn foot(words: &[u64], rules: &[u8], place: usize, out: &mut [u8]) -> usize
    requires loaded { Loaded words.now }
    requires line_room_in_bounds { line_room ≤ length out.old }
    requires rules_len_bound { (length rules.now ≤ rules_limit) × (length (lines rules.now) < place) }
    ensures { LinesOn words.now rules.now place out.old out.new result }
{
    if !is_foot(rules, place) {
        return 0;
    }
    total::write(turns::whole(words, rules), out)
}

// Whether a place behind the lines is the one straight behind them.
fn is_foot(rules: &[u8], place: usize) -> bool
    requires { length (lines rules.now) < place }
    ensures { result ≡ eqb place (length (lines rules.now) + 1) }
{
    if place == 1 {
        return true;
    }
    texts::line(rules, place - 2).is_some()
}

// The line of one rule on accepted tables.
fn rule_line(words: &[u64], rule: &[u8], place: usize, out: &mut [u8]) -> usize
    requires loaded { Loaded words.now }
    requires line_room_in_bounds { line_room ≤ length out.old }
    ensures { RuleLineOn words.now rule.now place out.old out.new result }
{
    text::line_of(place, verdicts::in_turn(words, rule), out)
}
