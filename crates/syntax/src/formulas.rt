// The reader of formulas: quantifiers, and the rule behind them.
// `vars` has room for eight choices; the first k are known.
ghost use Rattle.std.specs.Prelude.{◌≡◌, ℕ, ◌-◌, ◌≤◌, length, drop, take};
ghost use Rattle.syntax.specs.Term.{Choices};
ghost use Rattle.syntax.specs.Rule.{read_formula, read_rule};
ghost use Rattle.syntax.specs.Code.Arena.{Holds, HoldsRule};
ghost use Rattle.syntax.specs.Code.Reading.{mk, Readable, Knows, Agree, chosen_set, clause_room};

use super::arena::Place;
use super::names::stands;
use super::terms::read_term;
use super::tests::{CLAUSE_ROOM, read_rule};

// What stands behind `[v`: the digit of the next choice, `@`, its set and `]`.
fn read_set(s: &[u8], at: usize, vars: &[u32], nodes: &mut [u32], n: usize) -> Option<Place>
    requires readable { Readable s.now at vars.now (mk nodes.old n) }
    requires vars_len_bound { length vars.now ≤ 8 }
    ensures { (σ : Choices) → Knows (mk nodes.old n) vars.now σ → Agree Holds s.now at (mk nodes.old n) nodes.new result (chosen_set σ (drop at s.now)) }
{
    let c = *s.get(at)?;
    if c as usize != 49 + vars.len() || !stands(s, at + 1, b"@") {
        return None;
    }
    let p = read_term(s, at + 2, vars, nodes, n)?;
    if !stands(s, p.next, b"]") {
        return None;
    }
    Some(Place {
        node: p.node,
        next: p.next + 1,
        n: p.n,
    })
}

// The rule behind `:`.
fn read_body(s: &[u8], at: usize, vars: &[u32], nodes: &mut [u32], n: usize) -> Option<Place>
    requires { Readable s.now at vars.now (mk nodes.old n) }
    ensures { (σ : Choices) → Knows (mk nodes.old n) vars.now σ → Agree HoldsRule s.now at (mk nodes.old n) nodes.new result (read_rule σ clause_room (drop at s.now)) }
{
    let mut list = [0u32; CLAUSE_ROOM];
    read_rule(s, at, vars, nodes, n, &mut list)
}

// The quantifiers behind the first k, and the rule.
pub fn read_formula(
    s: &[u8],
    at: usize,
    vars: &mut [u32],
    k: usize,
    nodes: &mut [u32],
    n: usize,
) -> Option<Place>
    requires readable { Readable s.now at (take k vars.old) (mk nodes.old n) }
    requires vars_len { (length vars.old ≡ 8) × (k ≤ 8) }
    ensures { (σ : Choices) → Knows (mk nodes.old n) (take k vars.old) σ → Agree HoldsRule s.now at (mk nodes.old n) nodes.new result (read_formula clause_room (9 - k) σ (drop at s.now)) }
{
    if !stands(s, at, b"[v") {
        if !stands(s, at, b":") {
            return None;
        }
        return read_body(s, at + 1, &vars[..k], nodes, n);
    }
    if k == 8 {
        return None;
    }
    let p = read_set(s, at + 2, &vars[..k], nodes, n)?;
    vars[k] = p.node as u32;
    read_formula(s, p.next, vars, k + 1, nodes, p.n)
}
