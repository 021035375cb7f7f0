// An order of our own for counting: the search for a cheap one. Nothing is shown of it but that it ends, since what it finds is tested
// before it is used.
#![tactic(auto)]

ghost use Rattle.std.specs.Prelude.{◌≡◌, ◌<◌, ◌≤◌, length};
ghost use Rattle.tables.specs.Code.Layout.{Whole};
ghost use Rattle.rules.specs.Accept.{choices_limit};
ghost use Rattle.values.specs.Code.Plan.{plan_length, plan_room};
ghost use Rattle.orders.specs.Code.Desk.{most};

use rules::{CHOICES_LIMIT, RULE_LIMIT};
use syntax::nodes;
use syntax::nodes::{AO, FIRST_CALL, MEMBER, OE};
use values::ceiling;
use values::plan::{
    CLAUSE_COUNT, KIND_ROOM, KINDS, NAMES, NODE_COUNT, NODE_ROOM, SCOPE_ROOM, SCOPES,
    VARIABLE_ROOM, VARIABLE_UNIT,
};

// Whatever stands for a variable in an order, or on the desk, is one of so many.
const VARIABLES: u8 = CHOICES_LIMIT as u8;

// How much evaluating a call, evaluating another node, and looking for what is kept weigh.
const CALL: u64 = 8;

const NODE: u64 = 1;

const LOOK: u64 = 4;

// The part that is taken off once a clause is settled.
const OFF: u64 = 8;

// A cost as high as this is as bad as any other; so is a number of runs.
const MOST: u64 = 1099511627776;

// No order costs as much.
const WORST: u64 = 17592186044416;

// No variable has more items.
const WIDEST: u64 = 64;

// Fewer choices are not worth a search, which has one try for so much that the caller's order costs, and so many at most.
pub const SEARCHED_FROM: u64 = 4096;

const SHARE: u64 = 1024;

const TRIES_LIMIT: u64 = 1000;

// As many runs of a loop over as many items.
fn times(runs: u64, items: u64) -> u64
    ensures { result ≤ most }
{
    (runs.min(MOST) * items.min(WIDEST)).min(MOST)
}

// The words of what the clauses name.
fn scopes(plan: &[u64]) -> &[u64]
    requires { length plan.now ≡ plan_length }
{
    let many = (plan[CLAUSE_COUNT] as usize).min(SCOPE_ROOM);
    &plan[SCOPES..SCOPES + many]
}

// What is left names where those variables are chosen: the sets of the others, and the clauses that name one of them.
fn context(plan: &[u64], n: usize, chosen: u64) -> u64
    requires { (length plan.now ≡ plan_length) × (n ≤ choices_limit) }
{
    let mut found = 0;
    for (v, &set) in plan[NAMES..NAMES + n].iter().enumerate() {
        if !words::contains(chosen, v) {
            found = words::join(found, set);
        }
    }
    for &clause in scopes(plan) {
        if words::less(clause, chosen) != 0 {
            found = words::join(found, clause);
        }
    }
    words::meet(found, chosen)
}

// Whether a clause is settled where those variables are chosen: on tables that break it, little is left to count.
fn settled(plan: &[u64], chosen: u64) -> bool
    requires { length plan.now ≡ plan_length }
{
    scopes(plan)
        .iter()
        .any(|&clause| words::less(clause, chosen) == 0)
}

// What so many items cost; less once a clause is settled.
fn price(items: u64, each: u64, settled: bool) -> u64
    ensures { result ≤ most }
{
    let whole = times(items, each);
    if settled {
        return whole - whole / OFF;
    }
    whole
}

// How many items the variable v may have.
fn items_of(t: &[u64], plan: &[u64], v: usize) -> u64
    requires { Whole t.now × (length plan.now ≡ plan_length) × (v < choices_limit) }
{
    ceiling::count(t, (plan[KINDS + v] % KIND_ROOM) as u8) as u64
}

// How much evaluating a node weighs.
fn weight(word: u64) -> u64
    ensures { result ≤ most }
{
    let op = nodes::operation((word % NODE_ROOM) as u32);
    if op < FIRST_CALL {
        return NODE;
    }
    if op < OE {
        return CALL;
    }
    NODE
}

// The variables that the term of a node names, from what those below it name.
fn named(word: u64, names: &[u64]) -> u64
    requires { length names.now ≡ plan_room }
{
    let node = (word % NODE_ROOM) as u32;
    let op = nodes::operation(node);
    if op < FIRST_CALL {
        return 0;
    }
    if MEMBER <= op {
        return 0;
    }
    let left = words::row(names, nodes::left(node) as usize);
    if op < OE {
        return left;
    }
    let own = words::item((word / VARIABLE_UNIT % VARIABLE_ROOM) as usize);
    if op == OE {
        return own;
    }
    if op == AO {
        return words::join(own, left);
    }
    words::join(left, words::row(names, nodes::right(node) as usize))
}

// The desk of a search.
#[derive(Drop)]
struct Desk {
    // The variables tried, by depth, and how often the loop over the items of each runs.
    at: [u8; CHOICES_LIMIT],
    runs: [u64; CHOICES_LIMIT],
    // How many items each variable has, and how much evaluating one of them costs.
    sizes: [u64; CHOICES_LIMIT],
    weights: [u64; CHOICES_LIMIT],
    // The cheapest order so far, and what it costs.
    found: [u8; CHOICES_LIMIT],
    cost: u64,
    // How many tries are left.
    tries: u64,
}

impl Desk {
    // Lays out the caller's order, with how many items its variables have. All but the last of those it has begun with are chosen already.
    fn lay_out(&mut self, t: &[u64], plan: &[u64], order: &[u8], begun: usize)
        requires { Whole t.now × (length plan.now ≡ plan_length) × (length order.now ≤ choices_limit) }
    {
        for (i, &variable) in order.iter().enumerate() {
            let v = variable % VARIABLES;
            self.at[i] = v;
            let size = items_of(t, plan, v as usize);
            self.sizes[v as usize] = if i + 1 < begun { 1 } else { size };
        }
    }

    // Adds a weight to those of the variables of a word.
    fn add(&mut self, word: u64, weight: u64)
        requires { weight ≤ most }
    {
        for (v, sum) in self.weights.iter_mut().enumerate() {
            if words::contains(word, v) {
                *sum = (*sum).min(MOST) + weight;
            }
        }
    }

    // How much evaluating the items of each variable costs: the nodes that name it.
    fn weigh(&mut self, plan: &[u64])
        requires { length plan.now ≡ plan_length }
    {
        let mut names = [0u64; RULE_LIMIT];
        let many = (plan[NODE_COUNT] as usize).min(RULE_LIMIT);
        for (k, &word) in plan[..many].iter().enumerate() {
            names[k] = named(word, &names);
            self.add(names[k], weight(word));
        }
    }

    // One more than the last of the first d places whose variable is in the word, or 0.
    fn latest(&self, d: usize, word: u64) -> usize
        requires { d ≤ choices_limit }
        ensures { result ≤ d }
    {
        self.at[..d]
            .iter()
            .rposition(|&v| words::contains(word, (v % VARIABLES) as usize))
            .map_or(0, |j| j + 1)
    }

    // How many items the variable at the place j has.
    fn width(&self, j: usize) -> u64
        requires { j < choices_limit }
    {
        self.sizes[(self.at[j] % VARIABLES) as usize]
    }

    // How often the items of the variable at the place j are tried.
    fn tried(&self, j: usize) -> u64
        requires { j < choices_limit }
        ensures { result ≤ most }
    {
        times(self.runs[j], self.width(j))
    }

    // How often the loop at depth d runs: once for each item of the latest variable of the context, again whenever an earlier one of it changes,
    // and no more often than the items of the place before are tried.
    fn runs_at(&self, d: usize, word: u64) -> u64
        requires { d ≤ choices_limit }
    {
        let a = self.latest(d, word);
        if a == 0 {
            return 1;
        }
        let size = self.width(a - 1);
        let b = self.latest(a - 1, word);
        if b == 0 {
            return size;
        }
        times(self.tried(b - 1), size).min(self.tried(d - 1))
    }

    // What an item of the variable v costs: evaluating it and, unless it is the last variable's, looking for what is kept below it.
    fn item_price(&self, v: usize, last: bool) -> u64
        requires { v < choices_limit }
    {
        let weight = self.weights[v].min(MOST);
        if last {
            return weight;
        }
        weight + LOOK
    }

    // Whether the variable v may stand at depth d: it is not chosen, its set names chosen ones alone, and an order that has begun goes on so.
    fn admits(&self, plan: &[u64], begun: usize, d: usize, v: usize, chosen: u64) -> bool
        requires { (length plan.now ≡ plan_length) × (d < choices_limit) × (v < choices_limit) }
    {
        !words::contains(chosen, v)
            && words::less(plan[NAMES + v], chosen) == 0
            && (begun <= d || self.at[d] as usize == v)
    }

    // The order that was tried is the cheapest so far.
    fn prefer(&mut self, cost: u64) {
        self.cost = cost;
        self.found = self.at;
    }

    // Tries each way to go on from the d variables that are chosen, as long as it costs less than the cheapest order so far.
    fn seek(&mut self, plan: &[u64], n: usize, begun: usize, d: usize, chosen: u64, cost: u64)
        requires { (length plan.now ≡ plan_length) × (n ≤ choices_limit) × (d ≤ n) }
    {
        if self.tries == 0 {
            return;
        }
        self.tries -= 1;
        if d == n {
            self.prefer(cost);
            return;
        }
        let here = self.runs_at(d, context(plan, n, chosen));
        let less = settled(plan, chosen);
        self.runs[d] = here;
        for v in 0..n {
            if self.admits(plan, begun, d, v, chosen) {
                let each = self.item_price(v, d + 1 == n);
                let next = cost.min(MOST) + price(times(here, self.sizes[v]), each, less);
                if next < self.cost {
                    self.at[d] = v as u8;
                    let now = words::join(chosen, words::item(v));
                    self.seek(plan, n, begun, d + 1, now, next);
                }
            }
        }
    }
}

// An order that begins with the first `begun` variables of the caller's, and costs no more than it does as far as the search can tell.
pub fn own(t: &[u64], plan: &[u64], order: &[u8], begun: usize) -> [u8; CHOICES_LIMIT]
    requires { Whole t.now × (length plan.now ≡ plan_length) × (length order.now ≤ choices_limit) × (begun ≤ choices_limit) }
{
    let mut desk = Desk {
        at: [0; CHOICES_LIMIT],
        runs: [0; CHOICES_LIMIT],
        sizes: [0; CHOICES_LIMIT],
        weights: [NODE; CHOICES_LIMIT],
        found: [0; CHOICES_LIMIT],
        cost: WORST,
        tries: TRIES_LIMIT,
    };
    desk.weigh(plan);
    desk.lay_out(t, plan, order, begun);
    desk.seek(plan, order.len(), order.len(), 0, 0, 0);
    desk.tries = (desk.cost / SHARE).min(TRIES_LIMIT);
    desk.seek(plan, order.len(), begun, 0, 0, 0);
    desk.found
}

// Whether another order is worth another plan: the search finds a cheaper one.
pub fn worth(t: &[u64], plan: &[u64], order: &[u8]) -> bool
    requires { Whole t.now × (length plan.now ≡ plan_length) × (length order.now ≤ choices_limit) }
{
    let found = own(t, plan, order, 0);
    !walks::begins_alike(&found, order, order.len())
}
