// The tracker's calls: byte slices and numbers. A call returns L, or 65,536 × the refusal's number; for a page the line's position is added.
// `rank_step` alone refuses nothing. Below these nothing knows the tracker's numbers.
#![tactic(auto)]

ghost use Rattle.std.specs.Prelude.{◌≡◌, ◌<◌};
ghost use Rattle.changes.specs.declared.Change.TheVariants.{Opening, Closing};
ghost use Rattle.rcl2000.specs.Calls.{Reduces, GivesBack, Judges, JudgesPage, GivesStep, Forecasts, Starts, Changes, ListsLine};
ghost use Rattle.rcl2000.specs.Code.Reply.{reply_of, page_reply_of};

use answers::Refusal;
use changes::Change;
use pages::Refused;

// The tracker's number of what judging a page said; what refuses without a position has 0.
fn page_number(judged: Result<usize, Refused>) -> u32
    requires { page_reply_of judged < 4294967296 }
    ensures { result ≡ page_reply_of judged }
{
    match judged {
        Ok(l) => l as u32,
        Err(Refused { refusal, position }) => 65536 * u32::from(refusal) + position as u32,
    }
}

// The tracker's number of what was written.
fn number(written: Result<usize, Refusal>) -> u32
    requires { reply_of written < 4294967296 }
    ensures { result ≡ reply_of written }
{
    page_number(written.map_err(Refused::from))
}

// Rule to formula.
pub fn reduce(rule: &[u8], out: &mut [u8]) -> u32
    ensures { Reduces rule.now out.old out.new result }
{
    number(formulas::reduce(rule, out))
}

// Formula to rule.
pub fn rebuild(formula: &[u8], out: &mut [u8]) -> u32
    ensures { GivesBack formula.now out.old out.new result }
{
    number(formulas::rebuild(formula, out))
}

// The verdict on a rule, walked along an order.
pub fn judge(tables: &[u8], rule: &[u8], order: &[u8], out: &mut [u8]) -> u32
    ensures { Judges tables.now rule.now order.now out.old out.new result }
{
    number(verdicts::judge(tables, rule, order, out))
}

// The verdict on a page of rules, and on each of its lines in the order 1, 2, ..
pub fn judge_page(tables: &[u8], page: &[u8], out: &mut [u8]) -> u32
    ensures { JudgesPage tables.now page.now out.old out.new result }
{
    page_number(pages::judge(tables, page, out))
}

// The first step of the hierarchy test that fails, where the tables are refused for it; 0 for all others.
pub fn rank_step(tables: &[u8]) -> u32
    ensures { GivesStep tables.now result }
{
    tables::rank_step(tables)
}

// What is told of a rule before it is judged: the length of its formula, and a ceiling on its full choices.
pub fn forecast(tables: &[u8], rule: &[u8], out: &mut [u8]) -> u32
    ensures { Forecasts tables.now rule.now out.old out.new result }
{
    number(forecasts::forecast(tables, rule, out))
}

// The first state of a rule on tables: its verdict, the rule and the tables.
pub fn sessions_start(tables: &[u8], rule: &[u8], out: &mut [u8]) -> u32
    ensures { Starts tables.now rule.now out.old out.new result }
{
    number(sessions::start(tables, rule, out))
}

// The next state, with a session of this user with these active roles behind the last.
pub fn session_open(state: &[u8], user: u32, roles: u64, out: &mut [u8]) -> u32
    ensures { Changes state.now (Opening user roles) out.old out.new result }
{
    number(sessions::step(state, Change::Opening { user, roles }, out))
}

// The next state, without the session of this number, from 0.
pub fn session_close(state: &[u8], session: u32, out: &mut [u8]) -> u32
    ensures { Changes state.now (Closing session) out.old out.new result }
{
    number(sessions::step(state, Change::Closing(session), out))
}

// The line at a place, from 1, of the day sheet for a reader, who holds a word of users.
pub fn sheet_line(tables: &[u8], reader: u64, rules: &[u8], place: usize, out: &mut [u8]) -> u32
    ensures { ListsLine tables.now reader rules.now place out.old out.new result }
{
    number(readers::line(tables, reader, rules, place, out))
}
