// One rule's verdict, kept current while sessions open and close (document 02, N9).
// A state is bytes, and nothing else is kept: each call reads one and writes the next to the lent output.
#![tactic(auto)]

ghost use Rattle.std.specs.Prelude.{◌≡◌, ◌≤◌, length};
ghost use Rattle.answers.specs.Answer.{wrote, lent};
ghost use Rattle.answers.specs.Written.{Answers};
ghost use Rattle.verdicts.specs.Code.Judging.{AnswersOn};
ghost use Rattle.changes.specs.Code.Made.{Ready};
ghost use Rattle.sessions.specs.State.{state_bytes, started, stepped};
ghost use Rattle.sessions.specs.Code.Laying.{next_length, Front, Holds, ChangesOn, StepsOn};

use answers::Refusal;
use changes::Change;
use rules::Parsed;
use tables::layout::WHOLE;
use verdicts::sheet;

mod rows;
mod state;

// The verdict stands in front of a state, then the rule's length, in two bytes, and then the rule.
pub const HEAD: usize = sheet::VERDICT;

pub const FRONT: usize = HEAD + 2;

// The start on accepted tables, held as words and as bytes.
fn start_on(words: &[u64], tables: &[u8], rule: &[u8], out: &mut [u8]) -> Result<usize, Refusal>
    requires { Holds words.now tables.now }
    ensures { AnswersOn words.now rule.now (λ T ρ. wrote (state_bytes T ρ rule.now)) out.old out.new result }
{
    let parsed = rules::parse(rule)?;
    if out.len() < FRONT + rule.len() + tables.len() {
        return Err(Refusal::ShortSheet);
    }
    let a = state::put_current(words, parsed, out);
    let b = state::add_rule(a, rule, out);
    Ok(texts::add(b, tables, out))
}

// The start: tables are checked, then the rule; 17 comes last, and a refusal writes nothing.
pub fn start(tables: &[u8], rule: &[u8], out: &mut [u8]) -> Result<usize, Refusal>
    ensures { Answers (lent (length out.old) (started tables.now rule.now)) out.old out.new result }
{
    let mut words = [0u64; WHOLE];
    tables::load(tables, &mut words)?;
    start_on(&words, tables, rule, out)
}

// How many bytes there are once the change is made, where there are n.
fn next_length(change: Change, n: usize) -> usize
    requires { (9 ≤ n) × (n ≤ 65536) }
    ensures { result ≡ next_length change n }
{
    match change {
        Change::Opening { user: _, roles: _ } => n + rows::ROW,
        Change::Closing(_) => n - rows::ROW,
    }
}

// The next state, of a change that nothing refuses, for an accepted rule.
fn change_on(
    words: &mut [u64],
    parsed: Parsed,
    front: &[u8],
    tables: &[u8],
    change: Change,
    out: &mut [u8],
) -> Result<usize, Refusal>
    requires ready { Ready words.old change }
    requires holds { Holds words.old tables.now }
    requires front { Front front.now parsed }
    ensures { ChangesOn words.old front.now change out.old out.new result }
{
    if out.len() < next_length(change, front.len() + tables.len()) {
        return Err(Refusal::ShortSheet);
    }
    changes::make(words, change);
    let a = state::put_verdict(words, parsed, front, out);
    let b = state::add_rule(a, &front[FRONT..], out);
    Ok(rows::add_changed(words, tables, change, b, out))
}

// The rule is checked, then what refuses the change of accepted tables, held as words and as bytes.
fn step_on(
    words: &mut [u64],
    front: &[u8],
    tables: &[u8],
    change: Change,
    out: &mut [u8],
) -> Result<usize, Refusal>
    requires holds { Holds words.old tables.now }
    requires in_bounds { 28 ≤ length front.now }
    ensures { StepsOn words.old front.now change out.old out.new result }
{
    let parsed = rules::parse(&front[FRONT..])?;
    changes::due(words, change)?;
    change_on(words, parsed, front, tables, change, out)
}

// The change of a state: the state is read, then the change is looked at; 17 comes last, and a refusal writes nothing.
pub fn step(state: &[u8], change: Change, out: &mut [u8]) -> Result<usize, Refusal>
    ensures { Answers (lent (length out.old) (stepped state.now change)) out.old out.new result }
{
    let Some(end) = state::rule_end(state) else {
        return Err(Refusal::CutShort);
    };
    let front = &state[..end];
    let tables = &state[end..];
    let mut words = [0u64; WHOLE];
    tables::load(tables, &mut words)?;
    step_on(&mut words, front, tables, change, out)
}
