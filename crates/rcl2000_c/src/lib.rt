// The tracker's calls for C: each is the function of that name in crate `rcl2000`, with its contract again. What is exported is these ten names, and a
// slice passes as a pointer and a length.
#![tactic(auto)]

ghost use Rattle.changes.specs.declared.Change.TheVariants.{Opening, Closing};
ghost use Rattle.rcl2000.specs.Calls.{Reduces, GivesBack, Judges, JudgesPage, GivesStep, Forecasts, Starts, Changes, ListsLine};

// Rule to formula.
#[unsafe(no_mangle)]
pub extern "C" fn reduce(rule: &[u8], out: &mut [u8]) -> u32
    ensures { Reduces rule.now out.old out.new result }
{
    rcl2000::reduce(rule, out)
}

// Formula to rule.
#[unsafe(no_mangle)]
pub extern "C" fn rebuild(formula: &[u8], out: &mut [u8]) -> u32
    ensures { GivesBack formula.now out.old out.new result }
{
    rcl2000::rebuild(formula, out)
}

// The verdict on a rule, walked along an order.
#[unsafe(no_mangle)]
pub extern "C" fn judge(tables: &[u8], rule: &[u8], order: &[u8], out: &mut [u8]) -> u32
    ensures { Judges tables.now rule.now order.now out.old out.new result }
{
    rcl2000::judge(tables, rule, order, out)
}

// The verdict on a page of rules, and on each of its lines in the order 1, 2, ..
#[unsafe(no_mangle)]
pub extern "C" fn judge_page(tables: &[u8], page: &[u8], out: &mut [u8]) -> u32
    ensures { JudgesPage tables.now page.now out.old out.new result }
{
    rcl2000::judge_page(tables, page, out)
}

// The first step of the hierarchy test that fails, where the tables are refused for it; 0 for all others.
#[unsafe(no_mangle)]
pub extern "C" fn rank_step(tables: &[u8]) -> u32
    ensures { GivesStep tables.now result }
{
    rcl2000::rank_step(tables)
}

// What is told of a rule before it is judged: the length of its formula, and a ceiling on its full choices.
#[unsafe(no_mangle)]
pub extern "C" fn forecast(tables: &[u8], rule: &[u8], out: &mut [u8]) -> u32
    ensures { Forecasts tables.now rule.now out.old out.new result }
{
    rcl2000::forecast(tables, rule, out)
}

// The first state of a rule on tables: its verdict, the rule and the tables.
#[unsafe(no_mangle)]
pub extern "C" fn sessions_start(tables: &[u8], rule: &[u8], out: &mut [u8]) -> u32
    ensures { Starts tables.now rule.now out.old out.new result }
{
    rcl2000::sessions_start(tables, rule, out)
}

// The next state, with a session of this user with these active roles behind the last.
#[unsafe(no_mangle)]
pub extern "C" fn session_open(state: &[u8], user: u32, roles: u64, out: &mut [u8]) -> u32
    ensures { Changes state.now (Opening user roles) out.old out.new result }
{
    rcl2000::session_open(state, user, roles, out)
}

// The next state, without the session of this number, from 0.
#[unsafe(no_mangle)]
pub extern "C" fn session_close(state: &[u8], session: u32, out: &mut [u8]) -> u32
    ensures { Changes state.now (Closing session) out.old out.new result }
{
    rcl2000::session_close(state, session, out)
}

// The line at a place, from 1, of the day sheet for a reader, who holds a word of users.
#[unsafe(no_mangle)]
pub extern "C" fn sheet_line(
    tables: &[u8],
    reader: u64,
    rules: &[u8],
    place: usize,
    out: &mut [u8],
) -> u32
    ensures { ListsLine tables.now reader rules.now place out.old out.new result }
{
    rcl2000::sheet_line(tables, reader, rules, place, out)
}
