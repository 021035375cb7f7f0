// The writer of terms. A node stands above the nodes of its own terms, so the index is what falls.
// With no choices known it writes a rule's text, with the rule's own choices its formula's.
ghost use Rattle.std.specs.Prelude.{◌++◌, ◌+◌, ◌<◌, ◌≤◌};
ghost use Rattle.std.proofs.Math.Option.{some};
ghost use Rattle.syntax.specs.Bytes.{ascii};
ghost use Rattle.syntax.specs.Term.{text, ao_text};
ghost use Rattle.syntax.specs.Code.Arena.{Holds};
ghost use Rattle.printer.specs.Code.Printed.{Ready, Writes};
ghost use Rattle.printer.specs.Code.Signs.{sign_of};
ghost use Rattle.syntax.specs.Code.Nodes.{first_call, first_pair, member_op, op_at};

use crate::nodes::Tree;
use crate::sheet::Sheet;
use syntax::nodes::{FIRST_CALL, FIRST_PAIR, MEMBER, OE};
use syntax::places::seek;

impl Tree<'_> {
    // The term at node `k`. A full sheet ends it at once: terms that stand in many places would take long.
    #[cycle(terms)]
    pub fn term(&self, k: usize, sheet: &mut Sheet)
        requires { Ready self.now k }
        ensures { Writes self.now Holds k text sheet.old sheet.new }
    {
        if sheet.is_full() {
            return;
        }
        let op = self.op(k);
        if op < FIRST_CALL {
            sheet.sign(op);
        } else if op < FIRST_PAIR {
            self.one(k, sheet);
        } else if op < MEMBER {
            self.two(k, sheet);
        }
    }

    // A call, an OE or an AO: by the choice's variable where it is known.
    #[cycle(terms)]
    fn one(&self, k: usize, sheet: &mut Sheet)
        requires ready { Ready self.now k }
        requires op { (first_call ≤ op_at self.now.nodes.now k) × (op_at self.now.nodes.now k < first_pair) }
        ensures { Writes self.now Holds k text sheet.old sheet.new }
    {
        let op = self.op(k);
        let i = self.left(k);
        if op < OE {
            return self.closed(op, i, sheet);
        }
        let d = seek(self.vars, self.vars.len(), i as u32);
        if d == self.vars.len() {
            self.closed(op, i, sheet);
        } else if op == OE {
            sheet.choice(d);
        } else {
            self.others(i, d, sheet);
        }
    }

    // A name or sign, the term at node `i` and the closing bracket.
    #[cycle(terms)]
    fn closed(&self, op: u32, i: usize, sheet: &mut Sheet)
        requires ready { Ready self.now i }
        requires op { op < member_op }
        ensures { Writes self.now Holds i (λ σ a. sign_of op ++ (text σ a ++ ascii ")")) sheet.old sheet.new }
    {
        sheet.sign(op);
        self.term(i, sheet);
        sheet.put(b")");
    }

    // The term at node `i` without its choice of index `d`: `(X-{v})`.
    #[cycle(terms)]
    fn others(&self, i: usize, d: usize, sheet: &mut Sheet)
        requires ready { Ready self.now i }
        requires d { d < 8 }
        ensures { Writes self.now Holds i (λ σ a. ao_text (some (49 + d)) (text σ a)) sheet.old sheet.new }
    {
        sheet.put(b"(");
        self.term(i, sheet);
        sheet.without(d);
    }

    // Two terms in brackets.
    #[cycle(terms)]
    fn two(&self, k: usize, sheet: &mut Sheet)
        requires ready { Ready self.now k }
        requires op { (first_pair ≤ op_at self.now.nodes.now k) × (op_at self.now.nodes.now k < member_op) }
        ensures { Writes self.now Holds k text sheet.old sheet.new }
    {
        let op = self.op(k);
        sheet.open(op);
        self.term(self.left(k), sheet);
        self.closed(op, self.right(k), sheet);
    }
}
