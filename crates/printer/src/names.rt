// The names and signs of the language, as fixed byte strings put into a sheet.
// Each stands in a table at its operation's number.
ghost use Rattle.std.specs.Prelude.{[], ◌+◌, ◌%◌, ◌<◌, ◌≤◌, length, get_or, map};
ghost use Rattle.syntax.specs.Rule.{digits};
ghost use Rattle.syntax.specs.Code.Nodes.{first_pair, member_op};
ghost use Rattle.printer.specs.Code.Printed.{Adds};
ghost use Rattle.printer.specs.Code.Signs.{sign_of, signs_end, open_of, variable, bound, without};

use crate::sheet::Sheet;
use syntax::nodes::FIRST_PAIR;

static SIGNS: [&[u8]; 39] = [
    // Bases.
    b"U",
    b"R",
    b"OP",
    b"OBJ",
    b"P",
    b"S",
    b"CR",
    b"CP",
    b"CU",
    // Calls of one term, with `OE` and `AO`.
    b"user(",
    b"roles(",
    b"roles*(",
    b"sessions(",
    b"permissions(",
    b"permissions*(",
    b"object(",
    b"OE(",
    b"AO(",
    // What parts two terms.
    b",",
    b",",
    b"&",
    b"+",
    // What stands between the two sides of a test.
    b"@",
    b"=",
    b"!=",
    b"=",
    b"!=",
    b"<",
    b"<=",
    b">",
    b">=",
    b"=",
    b"!=",
    b"<",
    b"<=",
    b">",
    b">=",
    b"=",
    b"!=",
];

static OPENINGS: [&[u8]; 4] = [b"operations(", b"done(", b"(", b"("];

impl Sheet<'_> {
    // Row `k` of a table.
    fn row(&mut self, rows: &[&[u8]], k: usize)
        requires { k < length rows.now }
        ensures { Adds (get_or (map (λ r. r.now) rows.now) k []) self.old self.new }
    {
        self.put(rows[k]);
    }

    // The name or sign of an operation on terms or counts.
    #[tactic(auto, unfolding(crate::specs::Code::Signs::signs, crate::specs::Code::Signs::cmp_signs, syntax::specs::Term::spell, syntax::specs::Term::spell_middle, syntax::specs::Term::parting, syntax::specs::Rule::spell_between, syntax::specs::Rule::spell_cmp))]
    pub fn sign(&mut self, op: u32)
        requires { op < signs_end }
        ensures { Adds (sign_of op) self.old self.new }
    {
        self.row(&SIGNS, op as usize);
    }

    // What opens a term of two terms.
    #[tactic(auto, unfolding(crate::specs::Code::Signs::openings, syntax::specs::Term::opening, syntax::specs::Term::spell, syntax::specs::Term::spell_middle))]
    pub fn open(&mut self, op: u32)
        requires { (first_pair ≤ op) × (op < member_op) }
        ensures { Adds (open_of op) self.old self.new }
    {
        self.row(&OPENINGS, (op - FIRST_PAIR) as usize);
    }

    // A number below 100 without leading zero; of a larger one its last two digits.
    pub fn number(&mut self, m: usize)
        ensures { Adds (digits (m % 100)) self.old self.new }
    {
        let n = m % 100;
        if n < 10 {
            self.put(&[b'0' + n as u8]);
        } else {
            self.put(&[b'0' + (n / 10) as u8, b'0' + (n % 10) as u8]);
        }
    }

    // The variable of index `d`: v1 for the first.
    pub fn choice(&mut self, d: usize)
        requires { d < 8 }
        ensures { Adds (variable (49 + d)) self.old self.new }
    {
        self.put(&[b'v', b'1' + d as u8]);
    }

    // The beginning of its quantifier.
    pub fn bound(&mut self, d: usize)
        requires { d < 8 }
        ensures { Adds (bound (49 + d)) self.old self.new }
    {
        self.put(&[b'[', b'v', b'1' + d as u8, b'@']);
    }

    // The end of a term without it.
    pub fn without(&mut self, d: usize)
        requires { d < 8 }
        ensures { Adds (without (49 + d)) self.old self.new }
    {
        self.put(&[b'-', b'{', b'v', b'1' + d as u8, b'}', b')']);
    }
}
