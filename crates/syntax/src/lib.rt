// The reader of rules and of formulas: the whole text as a tree of nodes.
// nodes: their numbers; arena: the nodes; places: where a number stands; names: fixed byte strings; terms, tests and formulas: a reader for each form of the language.
#![tactic(auto)]

ghost use Rattle.std.specs.Prelude.{ℕ, ◌+◌, ◌≤◌, List, [], length};
ghost use Rattle.syntax.specs.Bytes.{Read};
ghost use Rattle.syntax.specs.Rule.{Rule, whole, rule_of, read_formula};
ghost use Rattle.syntax.specs.Code.Arena.{HoldsRule, Tidy};
ghost use Rattle.syntax.specs.Code.Reading.{mk, Agree, Reads, clause_room, Lists, Joinable, Together};

mod arena;
mod formulas;
pub mod names;
pub mod nodes;
pub mod places;
mod terms;
mod tests;

use arena::Place;
use formulas::read_formula;
use tests::{CLAUSE_ROOM, join_clauses, read_clauses, read_rule};

// The tree of a whole text: at a node, in n nodes.
#[derive(Clone, Copy)]
pub struct Root {
    pub node: usize,
    pub n: usize,
}

// A whole text by its clauses: so many of them, in n nodes.
#[derive(Clone, Copy)]
pub struct Listed {
    pub count: usize,
    pub n: usize,
}

// Nothing may be left behind what was read.
fn ended(s: &[u8], p: Option<Place>) -> Option<Root>
    ensures { (ns₀ ns : List ℕ) (o : Read Rule) → Agree HoldsRule s.now 0 (mk ns₀ 0) ns p o → Reads s.now ns result (whole o) }
{
    let Place { node, next, n } = p?;
    if next < s.len() {
        return None;
    }
    Some(Root { node, n })
}

// The rule that s is the text of.
pub fn rule(s: &[u8], nodes: &mut [u32]) -> Option<Root>
    requires { (length s.now ≤ length nodes.old) × (length nodes.old ≤ 4096) × (length s.now ≤ clause_room) }
    ensures { Reads s.now nodes.new result (rule_of s.now) }
{
    let none = [0u32; 1];
    let mut list = [0u32; CLAUSE_ROOM];
    let p = read_rule(s, 0, &none[..0], nodes, 0, &mut list[..s.len()]);
    ended(s, p)
}

// The rule that s is the formula of, with at most 8 quantifiers and CLAUSE_ROOM clauses. The stack that it takes grows with how deep the brackets go.
pub fn formula(s: &[u8], nodes: &mut [u32]) -> Option<Root>
    requires { (length s.now ≤ length nodes.old) × (length nodes.old ≤ 4096) }
    ensures { Reads s.now nodes.new result (whole (read_formula clause_room 9 [] s.now)) }
{
    let mut vars = [0u32; 8];
    let p = read_formula(s, 0, &mut vars, 0, nodes, 0);
    ended(s, p)
}

// The rule that s is the text of, by its clauses: their nodes come behind the n that are there, and are listed. So several texts have one tree.
pub fn clauses(s: &[u8], nodes: &mut [u32], n: usize, list: &mut [u32]) -> Option<Listed>
    requires { Tidy nodes.old n × (n + length s.now ≤ length nodes.old) × (length s.now ≤ length list.old) }
    ensures { Lists s.now (mk nodes.old n) nodes.new list.new result (rule_of s.now) }
{
    let none = [0u32; 1];
    let p = read_clauses(s, 0, &none[..0], nodes, n, list)?;
    if p.next < s.len() {
        return None;
    }
    Some(Listed {
        count: p.count,
        n: p.n,
    })
}

// The rule of the first c clauses of a list.
pub fn join(nodes: &mut [u32], n: usize, list: &[u32], c: usize) -> Root
    requires { Joinable (mk nodes.old n) list.now c 0 }
    ensures { Together (mk nodes.old n) list.now c nodes.new result }
{
    let p = join_clauses(nodes, n, list, c, 0);
    Root {
        node: p.node,
        n: p.n,
    }
}
