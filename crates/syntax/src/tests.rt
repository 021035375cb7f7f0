// The readers of tests, clauses and rules. `vars` are those of the terms.
// A function that is handed the node of a term speaks of whatever term that node holds.
ghost use Rattle.std.specs.Prelude.{◌≡◌, false, ℕ, ◌<◌, ◌≤◌, length, drop};
ghost use Rattle.syntax.specs.Bytes.{ascii};
ghost use Rattle.syntax.specs.Term.{Term, Choices};
ghost use Rattle.syntax.specs.Rule.{Cmp, read_test, read_clause, read_rule};
ghost use Rattle.syntax.specs.Code.Arena.{Holds, HoldsTest, HoldsClause, HoldsRule, cmp_number};
ghost use Rattle.syntax.specs.Code.Reading.{mk, Readable, Knows, Agree, Stands, counted, sized_test, related_test, Collects, Joinable, Joined};
ghost use Rattle.syntax.specs.Code.Nodes.{first_alike};

use super::arena::{Place, intern};
use super::names::{between_at, cmp_at, number_at, stands};
use super::nodes::{ALSO, FIRST_COUNTED, FIRST_NUMBERED, IS, TO_EMPTY, WHEN};
use super::terms::read_term;

// What stands behind a comparison with the number c: a number or a count. The term at node i is counted.
fn read_count(
    s: &[u8],
    at: usize,
    vars: &[u32],
    nodes: &mut [u32],
    n: usize,
    c: u32,
    i: usize,
) -> Option<Place>
    requires readable { Readable s.now at vars.now (mk nodes.old n) }
    requires c_bound { (c < 6) × (i < n) }
    ensures { (σ : Choices) (o : Cmp) (a : Term) → Knows (mk nodes.old n) vars.now σ → cmp_number o ≡ c → Holds nodes.old i a → Agree HoldsTest s.now at (mk nodes.old n) nodes.new result (counted σ o a (drop at s.now)) }
{
    if !stands(s, at, b"|") {
        let h = number_at(s, at)?;
        let number = h.number as usize;
        return Some(intern(nodes, n, FIRST_NUMBERED + c, i, number, h.next));
    }
    let p = read_term(s, at + 1, vars, nodes, n)?;
    if !stands(s, p.next, b"|") {
        return None;
    }
    Some(intern(nodes, p.n, FIRST_COUNTED + c, i, p.node, p.next + 1))
}

// What stands behind the first `|` of a test: a term, `|`, a comparison, and a number or a count.
fn read_sized(s: &[u8], at: usize, vars: &[u32], nodes: &mut [u32], n: usize) -> Option<Place>
    requires { Readable s.now at vars.now (mk nodes.old n) }
    ensures { (σ : Choices) → Knows (mk nodes.old n) vars.now σ → Agree HoldsTest s.now at (mk nodes.old n) nodes.new result (sized_test σ (drop at s.now)) }
{
    let p = read_term(s, at, vars, nodes, n)?;
    if !stands(s, p.next, b"|") {
        return None;
    }
    let h = cmp_at(s, p.next + 1)?;
    read_count(s, h.next, vars, nodes, p.n, h.number, p.node)
}

// Whether `{}` stands behind a sign; `@` has none behind it.
fn empty_at(s: &[u8], at: usize, op: u32) -> bool
    requires { at ≤ length s.now }
    ensures { (op < first_alike → result ≡ false) × (first_alike ≤ op → Stands s.now at (ascii "{}") result) }
{
    if op < IS {
        return false;
    }
    stands(s, at, b"{}")
}

// A test that begins with a term: a sign, and then a term or `{}`.
fn read_related(s: &[u8], at: usize, vars: &[u32], nodes: &mut [u32], n: usize) -> Option<Place>
    requires { Readable s.now at vars.now (mk nodes.old n) }
    ensures { (σ : Choices) → Knows (mk nodes.old n) vars.now σ → Agree HoldsTest s.now at (mk nodes.old n) nodes.new result (related_test σ (drop at s.now)) }
{
    let p = read_term(s, at, vars, nodes, n)?;
    let h = between_at(s, p.next)?;
    if empty_at(s, h.next, h.number) {
        return Some(intern(nodes, p.n, h.number + TO_EMPTY, p.node, 0, h.next + 2));
    }
    let q = read_term(s, h.next, vars, nodes, p.n)?;
    Some(intern(nodes, q.n, h.number, p.node, q.node, q.next))
}

fn read_test(s: &[u8], at: usize, vars: &[u32], nodes: &mut [u32], n: usize) -> Option<Place>
    requires { Readable s.now at vars.now (mk nodes.old n) }
    ensures { (σ : Choices) → Knows (mk nodes.old n) vars.now σ → Agree HoldsTest s.now at (mk nodes.old n) nodes.new result (read_test σ (drop at s.now)) }
{
    if stands(s, at, b"|") {
        return read_sized(s, at + 1, vars, nodes, n);
    }
    read_related(s, at, vars, nodes, n)
}

// A test, or a test, `=>` and a test.
fn read_clause(s: &[u8], at: usize, vars: &[u32], nodes: &mut [u32], n: usize) -> Option<Place>
    requires { Readable s.now at vars.now (mk nodes.old n) }
    ensures { (σ : Choices) → Knows (mk nodes.old n) vars.now σ → Agree HoldsClause s.now at (mk nodes.old n) nodes.new result (read_clause σ (drop at s.now)) }
{
    let p = read_test(s, at, vars, nodes, n)?;
    if !stands(s, p.next, b"=>") {
        return Some(p);
    }
    let q = read_test(s, p.next + 2, vars, nodes, p.n)?;
    Some(intern(nodes, q.n, WHEN, p.node, q.node, q.next))
}

// How many clauses are read at most: a rule has at most 256 bytes, and a clause one at least.
pub const CLAUSE_ROOM: usize = 256;

// The clauses of a rule: how many there are, the place behind them, and the count of nodes after them.
#[derive(Clone, Copy)]
pub struct Clauses {
    pub count: usize,
    pub next: usize,
    pub n: usize,
}

// The nodes of the clauses joined by `^`, at most as many as the list has room for.
pub fn read_clauses(
    s: &[u8],
    start: usize,
    vars: &[u32],
    nodes: &mut [u32],
    first: usize,
    list: &mut [u32],
) -> Option<Clauses>
    requires { Readable s.now start vars.now (mk nodes.old first) }
    ensures { (σ : Choices) → Knows (mk nodes.old first) vars.now σ → Collects s.now start (mk nodes.old first) nodes.new list.new result (read_rule σ (length list.old) (drop start s.now)) }
{
    let mut at = start;
    let mut n = first;
    for c in 0..list.len() {
        let p = read_clause(s, at, vars, nodes, n)?;
        list[c] = p.node as u32;
        if !stands(s, p.next, b"^") {
            return Some(Clauses {
                count: c + 1,
                next: p.next,
                n: p.n,
            });
        }
        at = p.next + 1;
        n = p.n;
    }
    None
}

// The rule of the first c clauses of a list, made from the last one on.
pub fn join_clauses(nodes: &mut [u32], n: usize, list: &[u32], c: usize, next: usize) -> Place
    requires { Joinable (mk nodes.old n) list.now c next }
    ensures { Joined (mk nodes.old n) list.now c next nodes.new result }
{
    let mut p = Place {
        node: list[c - 1] as usize,
        next,
        n,
    };
    for k in (0..c - 1).rev() {
        p = intern(nodes, p.n, ALSO, list[k] as usize, p.node, next);
    }
    p
}

// Clauses joined by `^`, at most as many as the list has room for. A list, and no call for each clause: the stack stays small.
pub fn read_rule(
    s: &[u8],
    at: usize,
    vars: &[u32],
    nodes: &mut [u32],
    n: usize,
    list: &mut [u32],
) -> Option<Place>
    requires { Readable s.now at vars.now (mk nodes.old n) }
    ensures { (σ : Choices) → Knows (mk nodes.old n) vars.now σ → Agree HoldsRule s.now at (mk nodes.old n) nodes.new result (read_rule σ (length list.old) (drop at s.now)) }
{
    let p = read_clauses(s, at, vars, nodes, n, list)?;
    Some(join_clauses(nodes, p.n, list, p.count, p.next))
}
