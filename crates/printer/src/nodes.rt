// A flat list of nodes, with those of the choices that are known, and the parts of a node.
// Nothing here knows what the operations mean.
ghost use Rattle.std.specs.Prelude.{◌≡◌, ◌<◌, length};
ghost use Rattle.syntax.specs.Code.Nodes.{op_at, left_at, right_at};

use syntax::nodes::{left, operation, right};

#[derive(Drop)]
pub struct Tree<'a> {
    pub nodes: &'a [u32],
    pub vars: &'a [u32],
}

impl Tree<'_> {
    pub fn op(&self, k: usize) -> u32
        requires { k < length self.now.nodes.now }
        ensures { result ≡ op_at self.now.nodes.now k }
    {
        operation(self.nodes[k])
    }

    pub fn left(&self, k: usize) -> usize
        requires { k < length self.now.nodes.now }
        ensures { result ≡ left_at self.now.nodes.now k }
    {
        left(self.nodes[k]) as usize
    }

    pub fn right(&self, k: usize) -> usize
        requires { k < length self.now.nodes.now }
        ensures { result ≡ right_at self.now.nodes.now k }
    {
        right(self.nodes[k]) as usize
    }
}
