// The variables of a rule: the nodes of the arguments of its OE and AO, in the order of the closing brackets.
// As many as a rule may have are kept; where there are more they are counted to one above that.
ghost use Rattle.std.specs.Prelude.{◌≡◌, ◌<◌, ◌≤◌, length};
ghost use Rattle.syntax.specs.Code.Arena.{Tidy};
ghost use Rattle.rules.specs.Accept.{choices_limit};
ghost use Rattle.rules.specs.Code.Variables.{Walked, Added};

use super::CHOICES_LIMIT;
use syntax::nodes::{FIRST_CALL, FIRST_PAIR, OE, has_two, left, operation, right};
use syntax::places::seek;

// The count after the node, which is put behind the others unless it is one of them.
fn add(vars: &mut [u32], count: usize, node: u32) -> usize
    requires { length vars.old ≡ choices_limit }
    ensures { Added vars.old count node vars.new result }
{
    if count > CHOICES_LIMIT || seek(vars, count, node) < count {
        return count;
    }
    if count == CHOICES_LIMIT {
        return count + 1;
    }
    vars[count] = node;
    count + 1
}

// The count after the variables of what node k holds, which are put behind the others: first those below it, then its own.
pub fn walk(nodes: &[u32], n: usize, k: usize, vars: &mut [u32], count: usize) -> usize
    requires tidy { Tidy nodes.now n }
    requires k_lt_n { k < n }
    requires vars_len { length vars.old ≡ choices_limit }
    ensures { Walked nodes.now n k vars.old count vars.new result }
{
    let v = nodes[k];
    let op = operation(v);
    if op < FIRST_CALL {
        return count;
    }
    let below = left(v);
    let c = walk(nodes, n, below as usize, vars, count);
    if op < OE {
        return c;
    }
    if op < FIRST_PAIR {
        return add(vars, c, below);
    }
    if has_two(op) {
        return walk(nodes, n, right(v) as usize, vars, c);
    }
    c
}
