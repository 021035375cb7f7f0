// The words of the lines of a walk: where each line's clauses begin and end, and by depth the mask of what its count depends on there.
// The order is the plan's own.
ghost use Rattle.std.specs.Prelude.{◌≡◌, ℕ, ◌<◌, ◌≤◌, length, get_or};
ghost use Rattle.values.specs.Code.Plan.{plan_length, plan_room};
ghost use Rattle.sharing.specs.Code.Lines.{lines_limit, lines_length};
ghost use Rattle.sharing.specs.Code.Laying.{Plotted, Starts, LaysLines, OrderIn, OrderOf, ByDepth, LaysLine};

use crate::lines::{FROM, TO, WORDS};
use judging::planning;
use judging::planning::{ORDER, VARIABLE_COUNT};
use rules::{CHOICES_LIMIT, Parsed, RULE_LIMIT};
use std::array;
use values::plan::CLAUSE_COUNT;
use walks::kept;

// The clauses of a line.
#[derive(Clone, Copy)]
pub struct Range {
    pub line: usize,
    pub from: usize,
    pub to: usize,
}

// The order's variables, as the plan has them.
fn order_of(plan: &[u64]) -> [u8; CHOICES_LIMIT]
    requires { OrderIn plan.now }
    ensures { OrderOf plan.now result }
{
    let count = plan[VARIABLE_COUNT] as usize;
    let mut order = [0u8; CHOICES_LIMIT];
    for d in 0..count {
        order[d] = plan[ORDER + d] as u8;
    }
    order
}

// By depth what the sets of the variables from there on name.
fn by_depth(names: &[u64], order: &[u8]) -> [u64; CHOICES_LIMIT]
    requires { (length names.now ≡ 8) × (length order.now ≤ 8) × ((i : ℕ) → i < length order.now → get_or order.now i 0 < 8) }
    ensures { ByDepth names.now order.now result }
{
    array::from_fn(|d| planning::by_sets(names, order, d))
}

// The words of one line.
fn line(plan: &[u64], scopes: &[u64], sets: &[u64], range: Range, lines: &mut [u64])
    requires { (length plan.now ≡ plan_length) × (length scopes.now ≡ plan_room) × (length sets.now ≡ 8) × (range.line < lines_limit) × (range.to ≤ plan_room) × (length lines.old ≡ lines_length) }
    ensures { LaysLine plan.now scopes.now sets.now range lines.old lines.new }
{
    let at = WORDS * range.line;
    for (d, set) in sets.iter().enumerate() {
        let named = planning::by_clauses(plan, scopes, range.from, range.to, d);
        lines[at + d] = kept::spread(words::join(*set, named));
    }
    lines[at + FROM] = range.from as u64;
    lines[at + TO] = range.to as u64;
}

// The words of all lines, whose clauses begin where `starts` says.
pub fn lay(parsed: Parsed, plan: &[u64], starts: &[u64], many: usize, lines: &mut [u64])
    requires { Plotted parsed plan.now × (many ≤ lines_limit) × Starts starts.now many × (length lines.old ≡ lines_length) }
    ensures { LaysLines parsed plan.now starts.now many lines.new }
{
    let all = parsed.vars;
    let vars = &all[..parsed.count];
    let mut terms = [0u64; RULE_LIMIT];
    values::names::terms(&parsed.nodes, parsed.n, vars, &mut terms);
    let mut scopes = [0u64; RULE_LIMIT];
    planning::scopes(plan, &terms, plan[CLAUSE_COUNT] as usize, &mut scopes);
    let order = order_of(plan);
    let names = values::names::sets(&terms, vars);
    let chosen = plan[VARIABLE_COUNT] as usize;
    let sets = by_depth(&names, &order[..chosen]);
    for l in 0..many {
        let range = Range {
            line: l,
            from: starts[l] as usize,
            to: starts[l + 1] as usize,
        };
        line(plan, &scopes, &sets, range, lines);
    }
}
