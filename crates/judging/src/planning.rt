// The plan of a call: what evaluating and counting go by, worked out once, in one flat slice.
ghost use Rattle.std.specs.Prelude.{◌≡◌, ℕ, ◌+◌, ◌<◌, ◌≤◌, ◌^◌, length, get_or, drop};
ghost use Rattle.words.specs.Words.{has};
ghost use Rattle.syntax.specs.Code.Arena.{Tidy};
ghost use Rattle.walks.specs.Code.Kept.{Masks};
ghost use Rattle.values.specs.Code.Clauses.{TestsAt};
ghost use Rattle.values.specs.Code.Levels.{Level};
ghost use Rattle.values.specs.Code.Plan.{plan_length, plan_room, levels_from, starts_from, first_in, second_in, Step};
ghost use Rattle.judging.specs.Code.Planning.{order_from, sets_from, contexts_from, masks_from, scopes_from, Filled, Noted, Plannable, ClauseWords, ClausesLow, LevelsWithin, Scoped, SetsNamedFrom, ClausesNamed, ContextWord, Laid, Plans};

use rules::RULE_LIMIT;
use syntax::nodes;
use syntax::nodes::{ALSO, FIRST_CALL};
use syntax::places::seek;
use values::plan::{
    CLAUSE_COUNT, CLAUSES, KINDS, LEVELS, NAMES, NODE_COUNT, SCOPE_ROOM, SCOPES, STARTS, pack,
};
use values::truth::tests_at;
use walks::kept::spread;

// How long a plan is.
pub const LENGTH: usize = 1024;

// Where the order's variables stand, the nodes of their sets, the contexts (8 depths for each of 2 modes), their masks, and how many variables
// there are. values::plan has the other parts.
pub const ORDER: usize = 784;

pub const SETS: usize = 792;

const CONTEXTS: usize = 800;

pub const MASKS: usize = 816;

pub const VARIABLE_COUNT: usize = 850;

// Fills in the n words of the plan from `at` on.
fn fill<F: Fn(usize) -> u64>(plan: &mut [u64], at: usize, n: usize, f: F)
    requires { (at + n ≤ length plan.old) × (length plan.old ≡ plan_length) × ((i : ℕ) → i < n → F.pre f i) }
    ensures { Filled plan.old plan.new at n (F.post f) }
{
    for i in 0..n {
        plan[at + i] = f(i);
    }
}

// The word of node k.
fn word(nodes: &[u32], n: usize, kinds: &[u8], vars: &[u32], next: &[u32], k: usize) -> u64
    requires { Plannable nodes.now n kinds.now vars.now next.now × (k < n) }
    ensures { Step nodes.now kinds.now vars.now next.now k result }
{
    let node = nodes[k];
    if nodes::operation(node) < FIRST_CALL {
        return pack(node, 0, 0, next[k]);
    }
    let left = nodes::left(node);
    pack(
        node,
        kinds[left as usize],
        seek(vars, vars.len(), left),
        next[k],
    )
}

// The nodes.
fn steps(plan: &mut [u64], nodes: &[u32], n: usize, kinds: &[u8], vars: &[u32], next: &[u32])
    requires { Plannable nodes.now n kinds.now vars.now next.now × (length plan.old ≡ plan_length) }
    ensures { Filled plan.old plan.new 0 n (Step nodes.now kinds.now vars.now next.now) }
{
    fill(plan, 0, n, |k| word(nodes, n, kinds, vars, next, k));
}

// The first nodes of the levels.
fn starts(plan: &mut [u64], first: &[u32])
    requires { (length plan.old ≡ plan_length) × (length first.now ≡ 9) }
    ensures { Filled plan.old plan.new starts_from 9 (λ d w. w ≡ get_or first.now d 0) }
{
    fill(plan, STARTS, 9, |d| first[d] as u64);
}

// The word of the clause of node k.
fn clause(nodes: &[u32], n: usize, k: usize) -> u64
    requires { Tidy nodes.now n × (k < n) }
    ensures { TestsAt nodes.now n k (first_in result) (second_in result) }
{
    tests_at(nodes, n, k).word()
}

// The clauses, by the nodes of their tests; how many there are.
fn clauses(plan: &mut [u64], nodes: &[u32], n: usize, root: usize) -> usize
    requires { Tidy nodes.now n × (root < n) × (n ≤ plan_room) × (length plan.old ≡ plan_length) }
    ensures { ClauseWords nodes.now n root plan.old plan.new result }
{
    let mut at = root;
    let mut i = 0;
    // Stays a while: it goes along the rule's nodes, and i counts its steps.
    while nodes::operation(nodes[at]) == ALSO {
        plan[CLAUSES + i] = clause(nodes, n, nodes::left(nodes[at]) as usize);
        at = nodes::right(nodes[at]) as usize;
        i += 1;
    }
    plan[CLAUSES + i] = clause(nodes, n, at);
    i + 1
}

// What each clause names, from what the terms name, into lent words.
pub fn scopes(plan: &[u64], names: &[u64], many: usize, found: &mut [u64])
    requires { (length plan.now ≡ plan_length) × (many ≤ plan_room) × (length found.old ≡ plan_room) × ClausesLow plan.now many (length names.now) }
    ensures { Scoped plan.now names.now many found.new }
{
    for i in 0..many {
        found[i] = values::scopes::clause(names, plan[CLAUSES + i]);
    }
}

// The levels of the clauses.
fn clause_levels(plan: &mut [u64], scopes: &[u64], many: usize, order: &[u8])
    requires { (length plan.old ≡ plan_length) × (many ≤ plan_room) × (length scopes.now ≡ plan_room) × (length order.now ≤ 8) × ((i : ℕ) → i < length order.now → get_or order.now i 0 < 64) }
    ensures { Filled plan.old plan.new levels_from many (λ i w. Level order.now (has (get_or scopes.now i 0)) w) }
{
    fill(plan, LEVELS, many, |i| {
        values::levels::level(scopes[i], order) as u64
    });
}

// The variables in their order.
fn places(plan: &mut [u64], order: &[u8])
    requires { (length plan.old ≡ plan_length) × (length order.now ≤ 8) }
    ensures { Filled plan.old plan.new order_from (length order.now) (λ d w. w ≡ get_or order.now d 0) }
{
    fill(plan, ORDER, order.len(), |d| order[d] as u64);
}

// The nodes of their sets.
fn sets(plan: &mut [u64], vars: &[u32], order: &[u8])
    requires { (length plan.old ≡ plan_length) × (length order.now ≤ 8) × (length vars.now ≤ 8) × ((i : ℕ) → i < length order.now → get_or order.now i 0 < length vars.now) }
    ensures { Filled plan.old plan.new sets_from (length order.now) (λ d w. w ≡ get_or vars.now (get_or order.now d 0) 0) }
{
    fill(plan, SETS, order.len(), |d| vars[order[d] as usize] as u64);
}

// What the sets of the variables from depth d on name.
pub fn by_sets(names: &[u64], order: &[u8], d: usize) -> u64
    requires { (length names.now ≡ 8) × (length order.now ≤ 8) × ((i : ℕ) → i < length order.now → get_or order.now i 0 < 8) }
    ensures { (result < 2 ^ 64) × SetsNamedFrom names.now order.now d result }
{
    let mut found = 0;
    for &v in order.iter().skip(d) {
        found = words::join(found, names[v as usize]);
    }
    found
}

// What the clauses above level d name, of those from `from` up to `to`.
pub fn by_clauses(plan: &[u64], scopes: &[u64], from: usize, to: usize, d: usize) -> u64
    requires { (length plan.now ≡ plan_length) × (length scopes.now ≡ plan_room) × (to ≤ plan_room) }
    ensures { (result < 2 ^ 64) × ClausesNamed (drop levels_from plan.now) scopes.now from to d result }
{
    let mut found = 0;
    for i in from..to {
        if d < plan[LEVELS + i] as usize {
            found = words::join(found, scopes[i]);
        }
    }
    found
}

// What is left names at a mode and depth, 8 × mode + depth: the sets and, while no clause is false, the clauses. Nothing where no variable is left.
fn context(names: &[u64], plan: &[u64], scopes: &[u64], many: usize, order: &[u8], at: usize) -> u64
    requires { (length names.now ≡ 8) × (length plan.now ≡ plan_length) × (length scopes.now ≡ plan_room) × (many ≤ plan_room) × (length order.now ≤ 8) × ((i : ℕ) → i < length order.now → get_or order.now i 0 < 8) × LevelsWithin plan.now many (length order.now) }
    ensures { ContextWord names.now (drop levels_from plan.now) scopes.now order.now many at result }
{
    if order.len() <= at % 8 {
        return 0;
    }
    let found = by_sets(names, order, at % 8);
    if at < 8 {
        return found;
    }
    words::join(found, by_clauses(plan, scopes, 0, many, at % 8))
}

// The contexts.
fn contexts(plan: &mut [u64], names: &[u64], scopes: &[u64], many: usize, order: &[u8])
    requires { (length names.now ≡ 8) × (length plan.old ≡ plan_length) × (length scopes.now ≡ plan_room) × (many ≤ plan_room) × (length order.now ≤ 8) × ((i : ℕ) → i < length order.now → get_or order.now i 0 < 8) × LevelsWithin plan.old many (length order.now) }
    ensures { Filled plan.old plan.new contexts_from 16 (λ at w. ContextWord names.now (drop levels_from plan.old) scopes.now order.now many at w) }
{
    for at in 0..16 {
        plan[CONTEXTS + at] = context(names, &plan[..], scopes, many, order, at);
    }
}

// Their masks.
fn masks(plan: &mut [u64])
    requires { length plan.old ≡ plan_length }
    ensures { Filled plan.old plan.new masks_from 16 (λ j w. Masks (get_or plan.old (contexts_from + j) 0) w) }
{
    for j in 0..16 {
        plan[MASKS + j] = spread(plan[CONTEXTS + j]);
    }
}

// Writes words where the search for an order looks for them.
fn note(plan: &mut [u64], at: usize, found: &[u64])
    requires { (length plan.old ≡ plan_length) × (scopes_from ≤ at) × (at + length found.now ≤ plan_length) }
    ensures { Noted plan.old plan.new }
{
    plan[at..at + found.len()].copy_from_slice(found);
}

// The kinds of the sets.
fn sorts(plan: &mut [u64], kinds: &[u8], vars: &[u32])
    requires { (length plan.old ≡ plan_length) × (length vars.now ≤ 8) × ((i : ℕ) → i < length vars.now → get_or vars.now i 0 < length kinds.now) }
    ensures { Noted plan.old plan.new }
{
    fill(plan, KINDS, vars.len(), |v| kinds[vars[v] as usize] as u64);
}

// The plan of a rule along an order, over whatever the lent words held.
pub fn plan(
    nodes: &[u32],
    n: usize,
    kinds: &[u8],
    vars: &[u32],
    root: usize,
    order: &[u8],
    plan: &mut [u64],
)
    requires { Laid nodes.now n kinds.now vars.now root order.now × (length plan.old ≡ plan_length) }
    ensures { Plans nodes.now n kinds.now vars.now root order.now plan.new }
{
    let mut terms = [0u64; RULE_LIMIT];
    values::names::terms(nodes, n, vars, &mut terms);
    let node_levels = values::levels::levels(&terms, n, order);
    let mut next = [0u32; RULE_LIMIT];
    let first = values::levels::chain(&node_levels, n, &mut next);
    steps(plan, nodes, n, kinds, vars, &next);
    starts(plan, &first);
    let many = clauses(plan, nodes, n, root);
    let mut named = [0u64; RULE_LIMIT];
    scopes(&plan[..], &terms, many, &mut named);
    clause_levels(plan, &named, many, order);
    places(plan, order);
    sets(plan, vars, order);
    let names = values::names::sets(&terms, vars);
    contexts(plan, &names, &named, many, order);
    masks(plan);
    note(plan, SCOPES, &named[..SCOPE_ROOM]);
    note(plan, NAMES, &names);
    sorts(plan, kinds, vars);
    plan[NODE_COUNT] = n as u64;
    plan[CLAUSE_COUNT] = many as u64;
    plan[VARIABLE_COUNT] = order.len() as u64;
}
