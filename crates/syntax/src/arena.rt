// The tree in a flat slice of nodes: a node is found again or put behind the others, so that equal trees have equal indexes.
// What a node is stands in `nodes`.
ghost use Rattle.std.specs.Prelude.{◌≡◌, ℕ, ◌<◌, ◌≤◌, length};
ghost use Rattle.syntax.specs.Code.Arena.{Low};
ghost use Rattle.syntax.specs.Code.Reading.{mk, Fresh, Put};
ghost use Rattle.syntax.specs.Code.Nodes.{node_of, ops_end, index_room};

use super::nodes::{FIRST_CALL, has_two, pack};
use super::places::seek;

// What a reader found: the node that holds it, the place behind it, and the count of nodes after it.
#[derive(Clone, Copy)]
pub struct Place {
    pub node: usize,
    pub next: usize,
    pub n: usize,
}

// Where the node of an operation on two indexes may stand first: it has what it stands on below it.
fn lowest(op: u32, i: usize, j: usize) -> usize
    requires { (op < ops_end) × (i < index_room) × (j < index_room) }
    ensures { (k : ℕ) → Low (node_of op i j) k → result ≤ k }
{
    if op < FIRST_CALL {
        return 0;
    }
    if has_two(op) { j } else { i }
}

// The node of an operation on two indexes, for what was read up to `next`.
pub fn intern(nodes: &mut [u32], n: usize, op: u32, i: usize, j: usize, next: usize) -> Place
    requires { Fresh (mk nodes.old n) op i j }
    ensures { Put (mk nodes.old n) (node_of op i j) next nodes.new result }
{
    let node = pack(op, i, j);
    let from = lowest(op, i, j);
    let k = from + seek(&nodes[from..], n - from, node);
    if k < n {
        return Place { node: k, next, n };
    }
    nodes[n] = node;
    Place {
        node: n,
        next,
        n: n + 1,
    }
}
