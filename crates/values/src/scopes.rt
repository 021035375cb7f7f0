// What tests and clauses name, as words of variables.
ghost use Rattle.std.specs.Prelude.{List, ℕ, length};
ghost use Rattle.syntax.specs.Code.Arena.{Low};
ghost use Rattle.values.specs.Code.Nodes.{NamesTo};
ghost use Rattle.values.specs.Code.Clauses.{TestNamesOf, ClauseNamesOf};
ghost use Rattle.values.specs.Code.Plan.{first_in, second_in};

use crate::truth::Tests;
use syntax::nodes;
use syntax::nodes::{FIRST_COUNTED, IS_EMPTY, MEMBER};

// The word of the variables that a test names, by the number of its node, from those that the terms name.
fn test(names: &[u64], node: u32) -> u64
    requires { Low node (length names.now) }
    ensures { (ns : List ℕ) (n : ℕ) (vs : List ℕ) → NamesTo ns n vs names.now n → Low node n → TestNamesOf ns n vs node result }
{
    let op = nodes::operation(node);
    if op < MEMBER {
        return 0;
    }
    let a = names[nodes::left(node) as usize];
    if IS_EMPTY <= op && op < FIRST_COUNTED {
        return a;
    }
    words::join(a, names[nodes::right(node) as usize])
}

// The word of the variables that the clause of a word of tests names.
pub fn clause(names: &[u64], word: u64) -> u64
    requires { Low (first_in word) (length names.now) × Low (second_in word) (length names.now) }
    ensures { (ns : List ℕ) (n : ℕ) (vs : List ℕ) → NamesTo ns n vs names.now n → Low (first_in word) n → Low (second_in word) n → ClauseNamesOf ns n vs (first_in word) (second_in word) result }
{
    let Tests { first, second } = Tests::of(word);
    let a = test(names, first);
    match second {
        None => a,
        Some(second) => words::join(a, test(names, second)),
    }
}
