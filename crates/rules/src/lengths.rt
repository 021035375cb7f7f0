// Lengths of terms, tests, clauses and rules as they are written, from the nodes alone.
// Equal subtrees are one node, so that a text that is long to write is quick to measure.
ghost use Rattle.std.specs.Prelude.{◌≡◌, ◌<◌, ◌≤◌, length, get_or};
ghost use Rattle.syntax.specs.Code.Arena.{Tidy};
ghost use Rattle.syntax.specs.Code.Nodes.{first_call};
ghost use Rattle.rules.specs.Accept.{rule_limit};
ghost use Rattle.rules.specs.Code.Lengths.{extra, plain_length, known_length, step_length, length_cap, capped, Knowing, LengthsOf, FormulaLength, FormulaIn};

use crate::RULE_LIMIT;
use syntax::nodes::{
    AO, FIRST_CALL, FIRST_NUMBERED, FIRST_PAIR, OE, OPS_END, has_two, left, operation, right,
};
use syntax::places::seek;

// How many bytes an operation adds to what it stands on: names with their brackets, signs, bars.
const EXTRA: [u8; 41] = [
    1, 1, 2, 3, 1, 1, 2, 2, 2, 6, 7, 8, 10, 13, 14, 8, 4, 4, 13, 7, 3, 3, 1, 1, 2, 3, 4, 3, 4, 3,
    4, 3, 4, 5, 6, 5, 6, 5, 6, 2, 1,
];

// No length above this one is told apart from it, so that a length takes two bytes.
const LENGTH_CAP: u32 = 65535;

#[tactic(auto, unfolding(crate::specs::Code::Lengths::extra, crate::specs::Code::Lengths::extra_table))]
fn extra_of(op: u32) -> u32
    ensures { (result ≡ extra op) × (result ≤ 14) }
{
    if op < OPS_END {
        EXTRA[op as usize] as u32
    } else {
        0
    }
}

// The length of an operation's text by those of its parts, which is m where the right part is a number.
#[tactic(auto, unfolding(crate::specs::Code::Lengths::plain_length))]
fn plain_length(op: u32, a: u32, b: u32, m: u32) -> u32
    requires { (a ≤ length_cap) × (b ≤ length_cap) }
    ensures { result ≡ plain_length op a b m }
{
    let e = extra_of(op);
    if has_two(op) {
        return e + a + b;
    }
    if op < FIRST_NUMBERED {
        return e + a;
    }
    if m < 10 { e + a + 1 } else { e + a + 2 }
}

// The same where the choice of an OE or AO is known: `v1`, and `(X-{v1})`.
#[tactic(auto, unfolding(crate::specs::Code::Lengths::known_length))]
fn known_length(op: u32, a: u32, b: u32, m: u32) -> u32
    requires { (a ≤ length_cap) × (b ≤ length_cap) }
    ensures { result ≡ known_length op a b m }
{
    if op == OE {
        return 2;
    }
    if op == AO {
        return 7 + a;
    }
    plain_length(op, a, b, m)
}

fn at_most(l: u32) -> u32
    ensures { result ≡ capped l }
{
    l.min(LENGTH_CAP)
}

// The length at a place, 0 past the end.
pub fn length_at(lens: &[u16], i: usize) -> u32
    ensures { result ≡ capped (get_or lens.now i 0) }
{
    if i < lens.len() {
        at_most(lens[i] as u32)
    } else {
        0
    }
}

// Whether it is an OE or AO whose choice is known: nothing is sought for another operation.
fn knows(op: u32, i: u32, vars: &[u32]) -> bool
    requires { first_call ≤ op }
    ensures { Knowing op i vars.now result }
{
    if op < OE || FIRST_PAIR <= op {
        return false;
    }
    seek(vars, vars.len(), i) < vars.len()
}

// The length of what a node holds, by those of the nodes below it, where the choices at vars are known.
#[tactic(auto, unfolding(crate::specs::Code::Lengths::node_length))]
fn length_of(lens: &[u16], vars: &[u32], node: u32) -> u32
    ensures { result ≡ step_length lens.now vars.now node }
{
    let op = operation(node);
    if op < FIRST_CALL {
        return at_most(extra_of(op));
    }
    let i = left(node);
    let j = right(node);
    let a = length_at(lens, i as usize);
    let b = length_at(lens, j as usize);
    if knows(op, i, vars) {
        return at_most(known_length(op, a, b, j));
    }
    at_most(plain_length(op, a, b, j))
}

// The lengths of what the first n nodes hold, where the choices at vars are known.
pub fn lengths(nodes: &[u32], n: usize, vars: &[u32], lens: &mut [u16])
    requires tidy { Tidy nodes.now n }
    requires n_in_bounds { n ≤ length lens.old }
    ensures { LengthsOf nodes.now n vars.now lens.new }
{
    for k in 0..n {
        lens[k] = length_of(lens, vars, nodes[k]) as u16;
    }
}

// The length of the formula of the rule at root, whose choices are at vars, by the lengths of the nodes where these are known.
fn totalled(lens: &[u16], vars: &[u32], root: usize) -> u32
    ensures { FormulaLength lens.now vars.now root result }
{
    let mut total = at_most(1 + length_at(lens, root));
    for &v in vars {
        total = at_most(total + 5 + length_at(lens, v as usize));
    }
    total
}

// The same of the tree of a rule's text, without writing anything.
pub fn formula_length(nodes: &[u32], n: usize, vars: &[u32], root: usize) -> u32
    requires tidy { Tidy nodes.now n }
    requires n_le_rule_limit { n ≤ rule_limit }
    requires root_lt_n { root < n }
    ensures { FormulaIn nodes.now n vars.now root result }
{
    let mut lens = [0u16; RULE_LIMIT];
    lengths(nodes, n, vars, &mut lens);
    totalled(&lens, vars, root)
}
