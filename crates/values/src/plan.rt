// The plan of a call, one flat slice: nodes and clauses as words, in which nothing is searched for; evaluating by it, level by level.
ghost use Rattle.std.specs.Prelude.{◌≡◌, ◌<◌, ◌≤◌, length, get_or};
ghost use Rattle.syntax.specs.Code.Arena.{Low};
ghost use Rattle.tables.specs.Code.Layout.{Whole};
ghost use Rattle.walks.specs.Code.Kept.{choice_of};
ghost use Rattle.values.specs.Code.Plan.{step_of, node_in, plan_room, clauses_at, Runs, StepOf, SettlesBy, HoldsAmong, HoldsOf};

use crate::{calls, items, truth};
use syntax::nodes;
use syntax::nodes::{AO, FIRST_CALL, MEMBER, OE};
use walks::kept;

// Where its parts begin: nodes at 0, then clauses, levels of clauses, first nodes of levels; how many nodes and clauses there are.
pub const CLAUSES: usize = 256;

pub const LEVELS: usize = 512;

pub const STARTS: usize = 768;

pub const NODE_COUNT: usize = 848;

pub const CLAUSE_COUNT: usize = 849;

// What the search for an order goes by, which stands behind all that: what each clause names, what each set names, the kinds of the sets.
pub const SCOPES: usize = 880;

pub const SCOPE_ROOM: usize = 64;

pub const NAMES: usize = 944;

pub const KINDS: usize = 952;

// The parts of a node's word: the node, the kind of its left, its variable, the next node of its level.
pub const NODE_ROOM: u64 = 4294967296;

pub const KIND_ROOM: u64 = 256;

pub const VARIABLE_UNIT: u64 = 1099511627776;

pub const VARIABLE_ROOM: u64 = 16;

const NEXT_UNIT: u64 = 17592186044416;

pub fn pack(node: u32, kind: u8, variable: usize, next: u32) -> u64
    requires { (variable < 16) × (next < 65536) }
    ensures { result ≡ step_of node kind variable next }
{
    (node as u64)
        + NODE_ROOM * (kind as u64)
        + VARIABLE_UNIT * (variable as u64)
        + NEXT_UNIT * (next as u64)
}

// The item chosen for the variable u.
fn chosen(choice: u64, u: usize) -> usize
    ensures { result ≡ get_or (choice_of choice) u 0 }
{
    if u < 8 { kept::byte(choice, u) } else { 0 }
}

// The value of a node from those right below it, which the cache has.
fn step(t: &[u64], word: u64, choice: u64, cache: &[u64]) -> u64
    requires { Whole t.now × Low (node_in word) (length cache.now) }
    ensures { StepOf t.now word choice cache.now result }
{
    let node = (word % NODE_ROOM) as u32;
    let op = nodes::operation(node);
    if op < FIRST_CALL {
        return items::base(t, op as usize);
    }
    if MEMBER <= op {
        return 0;
    }
    let kind = (word / NODE_ROOM % KIND_ROOM) as u8;
    let u = (word / VARIABLE_UNIT % VARIABLE_ROOM) as usize;
    if op == OE {
        return items::one(t, kind, chosen(choice, u));
    }
    let left = nodes::left(node) as usize;
    let a = cache[left];
    if op < OE {
        return calls::call(t, op, kind, a);
    }
    if op == AO {
        return words::less(a, words::item(chosen(choice, u)));
    }
    let right = nodes::right(node) as usize;
    calls::two(t, op, a, cache[right])
}

// Evaluates the nodes of a level: the cache has one level more.
pub fn settle(t: &[u64], plan: &[u64], choice: u64, cache: &mut [u64], level: usize)
    requires { Whole t.now × Runs plan.now × (length cache.old ≡ plan_room) × (level < 9) }
    ensures { SettlesBy t.now plan.now choice level cache.old cache.new }
{
    let n = plan[NODE_COUNT] as usize;
    let mut k = plan[STARTS + level] as usize;
    while k < n {
        let word = plan[k];
        cache[k] = step(t, word, choice, cache);
        k = (word / NEXT_UNIT) as usize;
    }
}

// Whether the clauses of a level among those from `from` up to `to` hold, where the cache has the values of that level.
pub fn holds_among(plan: &[u64], cache: &[u64], level: usize, from: usize, to: usize) -> bool
    requires { Runs plan.now × (length cache.now ≡ plan_room) × (from ≤ to) × (to ≤ get_or plan.now clauses_at 0) }
    ensures { HoldsAmong plan.now cache.now level from to result }
{
    for i in from..to {
        if plan[LEVELS + i] as usize == level {
            if !truth::clause(plan[CLAUSES + i], cache) {
                return false;
            }
        }
    }
    true
}

// Whether all the clauses of a level do.
pub fn holds(plan: &[u64], cache: &[u64], level: usize) -> bool
    requires { Runs plan.now × (length cache.now ≡ plan_room) }
    ensures { HoldsOf plan.now cache.now level result }
{
    holds_among(plan, cache, level, 0, plan[CLAUSE_COUNT] as usize)
}
