// The rules of several lines in one tree: a line's clauses come behind those of the lines before it, as long as there is room and the variables are the same.
// Equal terms have one node, so that equal variables are equal nodes.
ghost use Rattle.std.specs.Prelude.{◌≡◌, List, ℕ, ◌<◌, ◌≤◌, length, get_or, IfSome};
ghost use Rattle.std.proofs.Math.Option.{none};
ghost use Rattle.syntax.specs.Rule.{Rule};
ghost use Rattle.syntax.specs.Code.Arena.{Tidy};
ghost use Rattle.rules.specs.Accept.{choices_limit, refusal};
ghost use Rattle.sharing.specs.Code.Gathering.{Room, Sheaf, Adds, Bound, Shared, Varied};

use rules::kinds::NO_KIND;
use rules::{CHOICES_LIMIT, Parsed, RULE_LIMIT, Tree};

// The lent nodes and the lent list have this length.
pub const ROOM: usize = 512;

// How many nodes, clauses and variables there are.
#[derive(Clone, Copy)]
pub struct Size {
    pub n: usize,
    pub c: usize,
    pub count: usize,
}

// The variables of the clauses of a list come to `vars`; how many there are.
fn variables(nodes: &[u32], n: usize, list: &[u32], vars: &mut [u32]) -> usize
    requires tidy { Tidy nodes.now n }
    requires by_index { (i : ℕ) → i < length list.now → get_or list.now i 0 < n }
    requires vars_len { length vars.old ≡ choices_limit }
    ensures { Varied nodes.now n list.now (length list.now) vars.new result }
{
    let mut count = 0;
    for k in list {
        count = rules::variables::walk(nodes, n, *k as usize, vars, count);
    }
    count
}

// Whether a line may come with these variables of its own: it is the first one, or they are those that are there.
fn shared(vars: &[u32], size: Size, own: &[u32], count: usize) -> bool
    requires { (size.count ≤ length vars.now) × (size.count ≤ length own.now) }
    ensures { Shared vars.now size.n size.count own.now count result }
{
    size.n == 0 || (count == size.count && own[..count] == vars[..count])
}

// Takes an accepted line in, behind those that are there; how many nodes, clauses and variables there are with it.
// None where it is left out, and then what was there is there.
pub fn add(
    line: &[u8],
    nodes: &mut [u32],
    list: &mut [u32],
    vars: &mut [u32],
    size: Size,
) -> Option<Size>
    requires line_value { refusal line.now ≡ none }
    requires room { Room nodes.old list.old vars.old size.n size.c size.count }
    ensures { (κs : List Rule) → Sheaf κs nodes.old list.old vars.old size.n size.c size.count → Adds κs line.now nodes.new list.new vars.new size.n size.c size.count result }
{
    let from = size.c;
    let listed = syntax::clauses(line, nodes, size.n, &mut list[from..])?;
    let n = listed.n;
    let c = from + listed.count;
    if n + c > RULE_LIMIT {
        return None;
    }
    let mut own = [0u32; CHOICES_LIMIT];
    let count = variables(nodes, n, &list[from..c], &mut own);
    if !shared(vars, size, &own, count) {
        return None;
    }
    vars[..count].copy_from_slice(&own[..count]);
    Some(Size { n, c, count })
}

// The rule of all clauses, as it is parsed; none where the lines do not make one.
pub fn close(nodes: &[u32], list: &[u32], vars: &[u32], size: Size) -> Option<Parsed>
    requires { Room nodes.now list.now vars.now size.n size.c size.count }
    ensures { (κs : List Rule) → Sheaf κs nodes.now list.now vars.now size.n size.c size.count → IfSome result (λ p. Bound κs p.nodes p.n p.root p.kinds p.vars p.count) }
{
    if size.c == 0 {
        return None;
    }
    let mut tree = [0u32; RULE_LIMIT];
    tree[..size.n].copy_from_slice(&nodes[..size.n]);
    let whole = syntax::join(&mut tree, size.n, list, size.c);
    let mut kinds = [NO_KIND; RULE_LIMIT];
    let mut own = [0u32; CHOICES_LIMIT];
    let checked = rules::check_tree(&tree, whole.n, whole.node, &mut kinds, &mut own);
    let Ok(Tree { n, root, count }) = checked else {
        return None;
    };
    if !shared(vars, size, &own, count) {
        return None;
    }
    Some(Parsed {
        nodes: tree,
        n,
        root,
        kinds,
        vars: own,
        count,
    })
}
