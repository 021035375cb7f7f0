// The reader of terms. `vars` are the nodes of the choices known so far.
// The term reader and the readers of what stands in brackets call each other with a falling number of bytes left.
ghost use Rattle.std.specs.Prelude.{◌≡◌, ℕ, ◌<◌, ◌≤◌, length, drop};
ghost use Rattle.syntax.specs.Term.{Term, Choices, read_term, closed};
ghost use Rattle.syntax.specs.Code.Arena.{Holds};
ghost use Rattle.syntax.specs.Code.Reading.{mk, Readable, Knows, Agree, Chosen, Makes, choice, less, paired};
ghost use Rattle.syntax.specs.Code.Nodes.{first_call, first_pair};

use super::arena::{Place, intern};
use super::names::{Spelled, head_at, middle_at, stands};
use super::nodes::{AO, CHOICE_HEAD, FIRST_CALL, FIRST_PAIR, OE};

// The node of the choice whose digit stands at a place.
fn choice_at(s: &[u8], at: usize, vars: &[u32]) -> Option<Spelled>
    requires { at ≤ length s.now }
    ensures { Chosen s.now at vars.now result }
{
    let c = *s.get(at)?;
    if c < 49 {
        return None;
    }
    let v = *vars.get((c - 49) as usize)?;
    Some(Spelled {
        number: v,
        next: at + 1,
    })
}

// What stands behind `v`: the digit of a choice, which is OE of its argument.
fn read_choice(s: &[u8], at: usize, vars: &[u32], nodes: &mut [u32], n: usize) -> Option<Place>
    requires { Readable s.now at vars.now (mk nodes.old n) }
    ensures { (σ : Choices) → Knows (mk nodes.old n) vars.now σ → Agree Holds s.now at (mk nodes.old n) nodes.new result (choice σ (drop at s.now)) }
{
    let c = choice_at(s, at, vars)?;
    Some(intern(nodes, n, OE, c.number as usize, 0, c.next))
}

// What stands behind `(`, a term and `-{v`: the digit of a choice and `})`, which is AO of the term at node i.
fn read_less(
    s: &[u8],
    at: usize,
    vars: &[u32],
    nodes: &mut [u32],
    n: usize,
    i: usize,
) -> Option<Place>
    requires readable { Readable s.now at vars.now (mk nodes.old n) }
    requires i_lt_n { i < n }
    ensures { (σ : Choices) (a : Term) → Knows (mk nodes.old n) vars.now σ → Holds nodes.old i a → Agree Holds s.now at (mk nodes.old n) nodes.new result (less σ a (drop at s.now)) }
{
    let c = choice_at(s, at, vars)?;
    if !stands(s, c.next, b"})") {
        return None;
    }
    Some(intern(nodes, n, AO, i, 0, c.next + 2))
}

// A term at a place.
#[cycle(read_call_read_term_read_two)]
pub fn read_term(s: &[u8], at: usize, vars: &[u32], nodes: &mut [u32], n: usize) -> Option<Place>
    requires { Readable s.now at vars.now (mk nodes.old n) }
    ensures { (σ : Choices) → Knows (mk nodes.old n) vars.now σ → Agree Holds s.now at (mk nodes.old n) nodes.new result (read_term σ (drop at s.now)) }
{
    let Spelled { number: op, next } = head_at(s, at)?;
    if op < FIRST_CALL {
        return Some(intern(nodes, n, op, 0, 0, next));
    }
    if op < FIRST_PAIR {
        return read_call(s, next, vars, nodes, n, op);
    }
    if op < CHOICE_HEAD {
        return read_two(s, next, vars, nodes, n, op);
    }
    read_choice(s, next, vars, nodes, n)
}

// What stands behind `name(`: a term and `)`.
#[cycle(read_call_read_term_read_two)]
fn read_call(
    s: &[u8],
    at: usize,
    vars: &[u32],
    nodes: &mut [u32],
    n: usize,
    op: u32,
) -> Option<Place>
    requires readable { Readable s.now at vars.now (mk nodes.old n) }
    requires first_call_le_op { (first_call ≤ op) × (op < first_pair) }
    ensures { (σ : Choices) (make : Term → Term) → Knows (mk nodes.old n) vars.now σ → Makes op make → Agree Holds s.now at (mk nodes.old n) nodes.new result (closed (read_term σ) make (drop at s.now)) }
{
    let p = read_term(s, at, vars, nodes, n)?;
    if !stands(s, p.next, b")") {
        return None;
    }
    Some(intern(nodes, p.n, op, p.node, 0, p.next + 1))
}

// What stands behind the name of a call of two terms and behind `(`: a term, a sign, a term and `)`, or a term, `-{v` and what follows it.
#[cycle(read_call_read_term_read_two)]
fn read_two(
    s: &[u8],
    at: usize,
    vars: &[u32],
    nodes: &mut [u32],
    n: usize,
    op: u32,
) -> Option<Place>
    requires readable { Readable s.now at vars.now (mk nodes.old n) }
    requires first_pair_le_op { first_pair ≤ op }
    ensures { (σ : Choices) → Knows (mk nodes.old n) vars.now σ → Agree Holds s.now at (mk nodes.old n) nodes.new result (paired (read_term σ) σ op (drop at s.now)) }
{
    let p = read_term(s, at, vars, nodes, n)?;
    let h = middle_at(s, p.next, op)?;
    if h.number == AO {
        return read_less(s, h.next, vars, nodes, p.n, p.node);
    }
    let q = read_term(s, h.next, vars, nodes, p.n)?;
    if !stands(s, q.next, b")") {
        return None;
    }
    Some(intern(nodes, q.n, h.number, p.node, q.node, q.next + 1))
}
