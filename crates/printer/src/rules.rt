// The writers of tests, clauses, rules and formulas.
// A rule's text is written with no choices, a formula with those of its rule.
ghost use Rattle.std.specs.Prelude.{◌++◌, ◌<◌, ◌≤◌, length};
ghost use Rattle.syntax.specs.Bytes.{ascii};
ghost use Rattle.syntax.specs.Term.{text};
ghost use Rattle.syntax.specs.Rule.{test_text, clause_text, rule_text};
ghost use Rattle.syntax.specs.Code.Arena.{Holds, HoldsTest, HoldsClause, HoldsRule};
ghost use Rattle.printer.specs.Code.Printed.{Prints, Printable, Ready, Writes, left_text, right_text, quantifier, formula_in};
ghost use Rattle.syntax.specs.Code.Nodes.{member_op, when_op, op_at};

use crate::nodes::Tree;
use crate::sheet::Sheet;
use syntax::nodes::{ALSO, FIRST_COUNTED, FIRST_NUMBERED, IS_EMPTY, MEMBER, WHEN};

impl Tree<'_> {
    // The count of a term.
    fn count(&self, i: usize, sheet: &mut Sheet)
        requires { Ready self.now i }
        ensures { Writes self.now Holds i (λ σ a. ascii "|" ++ (text σ a ++ ascii "|")) sheet.old sheet.new }
    {
        sheet.put(b"|");
        self.term(i, sheet);
        sheet.put(b"|");
    }

    // What a test has left of its sign: a term, or its count.
    fn test_left(&self, k: usize, sheet: &mut Sheet)
        requires ready { Ready self.now k }
        requires op { (member_op ≤ op_at self.now.nodes.now k) × (op_at self.now.nodes.now k < when_op) }
        ensures { Writes self.now HoldsTest k left_text sheet.old sheet.new }
    {
        let i = self.left(k);
        if self.op(k) < FIRST_NUMBERED {
            self.term(i, sheet);
        } else {
            self.count(i, sheet);
        }
    }

    // What it has right of it: a term, the empty set, a number or a count.
    fn test_right(&self, k: usize, sheet: &mut Sheet)
        requires ready { Ready self.now k }
        requires op { (member_op ≤ op_at self.now.nodes.now k) × (op_at self.now.nodes.now k < when_op) }
        ensures { Writes self.now HoldsTest k right_text sheet.old sheet.new }
    {
        let op = self.op(k);
        let m = self.right(k);
        if op < IS_EMPTY {
            self.term(m, sheet);
        } else if op < FIRST_NUMBERED {
            sheet.put(b"{}");
        } else if op < FIRST_COUNTED {
            sheet.number(m);
        } else {
            self.count(m, sheet);
        }
    }

    // The test at node `k`.
    fn test(&self, k: usize, sheet: &mut Sheet)
        requires { Ready self.now k }
        ensures { Writes self.now HoldsTest k test_text sheet.old sheet.new }
    {
        let op = self.op(k);
        if MEMBER <= op && op < WHEN {
            self.test_left(k, sheet);
            sheet.sign(op);
            self.test_right(k, sheet);
        }
    }

    // The clause at node `k`: a test, or two with `=>` between them.
    fn clause(&self, k: usize, sheet: &mut Sheet)
        requires { Ready self.now k }
        ensures { Writes self.now HoldsClause k clause_text sheet.old sheet.new }
    {
        if self.op(k) != WHEN {
            return self.test(k, sheet);
        }
        self.test(self.left(k), sheet);
        sheet.put(b"=>");
        self.test(self.right(k), sheet);
    }

    // The clauses of the rule at node `k`: one, or one, `^` and those of a rule.
    fn clauses(&self, k: usize, sheet: &mut Sheet)
        requires { Ready self.now k }
        ensures { Writes self.now HoldsRule k rule_text sheet.old sheet.new }
    {
        if self.op(k) != ALSO {
            return self.clause(k, sheet);
        }
        self.clause(self.left(k), sheet);
        sheet.put(b"^");
        self.clauses(self.right(k), sheet);
    }

    // The quantifier of the next choice, whose argument is at node `i`.
    fn quantifier(&self, i: usize, sheet: &mut Sheet)
        requires ready { Ready self.now i }
        requires few { length self.now.vars.now < 8 }
        ensures { Writes self.now Holds i quantifier sheet.old sheet.new }
    {
        sheet.bound(self.vars.len());
        self.term(i, sheet);
        sheet.put(b"]");
    }
}

// The rule at node `k`.
pub fn write_rule(nodes: &[u32], k: usize, vars: &[u32], out: &mut [u8]) -> usize
    requires { Printable nodes.now k vars.now }
    ensures { Prints nodes.now vars.now (HoldsRule nodes.now k) rule_text out.old out.new result }
{
    let mut sheet = Sheet::new(out);
    Tree { nodes, vars }.clauses(k, &mut sheet);
    sheet.end()
}

// The formula of the rule at node `k`, whose choices are `vars`. The set of each choice names only choices before it.
pub fn write_formula(nodes: &[u32], k: usize, vars: &[u32], out: &mut [u8]) -> usize
    requires { Printable nodes.now k vars.now }
    ensures { Prints nodes.now vars.now (HoldsRule nodes.now k) formula_in out.old out.new result }
{
    let mut sheet = Sheet::new(out);
    for (d, &i) in vars.iter().enumerate() {
        let before = Tree {
            nodes,
            vars: &vars[..d],
        };
        before.quantifier(i as usize, &mut sheet);
    }
    sheet.put(b":");
    Tree { nodes, vars }.clauses(k, &mut sheet);
    sheet.end()
}
