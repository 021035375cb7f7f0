// Whether a clause is true, where a cache has the values of the terms: by the numbers of the nodes of its tests.
ghost use Rattle.std.specs.Prelude.{◌≡◌, ◌<◌, length, MatchOption};
ghost use Rattle.syntax.specs.Code.Arena.{Low, Tidy};
ghost use Rattle.values.specs.Code.Nodes.{related_at, empty_at};
ghost use Rattle.values.specs.Code.Cache.{TestOf, ClauseOf};
ghost use Rattle.values.specs.Code.Clauses.{TestsAt, number_of_second};
ghost use Rattle.values.specs.Code.Plan.{first_in, second_in};

use crate::items::Comparison;
use syntax::nodes;
use syntax::nodes::{FIRST_COUNTED, FIRST_NUMBERED, IS, IS_EMPTY, MEMBER, WHEN};

// The first test's part of a word of tests.
const TEST_ROOM: u64 = 4294967296;

// `@`, `=` and `!=` of two values. An element is in a set where they have an item in common.
#[tactic(auto, unfolding(crate::specs::Code::Nodes::related_at))]
fn related(op: u32, a: u64, b: u64) -> bool
    ensures { result ≡ related_at op a b }
{
    if op == MEMBER {
        return words::meet(a, b) != 0;
    }
    if op == IS {
        return a == b;
    }
    a != b
}

// `={}` and `!={}`.
#[tactic(auto, unfolding(crate::specs::Code::Nodes::empty_at))]
fn empty(op: u32, a: u64) -> bool
    ensures { result ≡ empty_at op a }
{
    if op == IS_EMPTY { a == 0 } else { a != 0 }
}

fn test(node: u32, cache: &[u64]) -> bool
    requires { Low node (length cache.now) }
    ensures { TestOf node cache.now result }
{
    let op = nodes::operation(node);
    if op < MEMBER || WHEN <= op {
        return false;
    }
    let left = nodes::left(node) as usize;
    let right = nodes::right(node) as usize;
    let a = cache[left];
    if op < IS_EMPTY {
        return related(op, a, cache[right]);
    }
    if op < FIRST_NUMBERED {
        return empty(op, a);
    }
    let x = words::size(a);
    if op < FIRST_COUNTED {
        return Comparison::numbered(op - FIRST_NUMBERED).holds(x, right);
    }
    let y = words::size(cache[right]);
    Comparison::numbered(op - FIRST_COUNTED).holds(x, y)
}

// The nodes of a clause's tests, of which `=>` has two.
#[derive(Clone, Copy)]
pub struct Tests {
    pub first: u32,
    pub second: Option<u32>,
}

impl Tests {
    // In one word; 0, which is no test, says that there is no second.
    pub fn word(self) -> u64
        ensures { (first_in result ≡ self.first) × (second_in result ≡ number_of_second self.second) }
    {
        (self.first as u64) + TEST_ROOM * (self.second.unwrap_or(0) as u64)
    }

    // Those of a word.
    pub fn of(word: u64) -> Tests
        ensures { (result.first ≡ first_in word) × MatchOption result.second (second_in word ≡ 0) (λ second. (second ≡ second_in word) × (0 < second)) }
    {
        let first = (word % TEST_ROOM) as u32;
        let second = (word / TEST_ROOM) as u32;
        if second == 0 {
            return Tests {
                first,
                second: None,
            };
        }
        Tests {
            first,
            second: Some(second),
        }
    }
}

// The clause of a word of tests. `=>` is false only where its first test is true and its second false.
pub fn clause(word: u64, cache: &[u64]) -> bool
    requires { Low (first_in word) (length cache.now) × Low (second_in word) (length cache.now) }
    ensures { ClauseOf (first_in word) (second_in word) cache.now result }
{
    let Tests { first, second } = Tests::of(word);
    match second {
        None => test(first, cache),
        Some(second) => !test(first, cache) || test(second, cache),
    }
}

// The tests of the clause of node k.
pub fn tests_at(nodes: &[u32], n: usize, k: usize) -> Tests
    requires { Tidy nodes.now n × (k < n) }
    ensures { TestsAt nodes.now n k result.first (number_of_second result.second) }
{
    let node = nodes[k];
    if nodes::operation(node) != WHEN {
        return Tests {
            first: node,
            second: None,
        };
    }
    let left = nodes::left(node) as usize;
    let right = nodes::right(node) as usize;
    let first = nodes[left];
    let second = Some(nodes[right]);
    Tests { first, second }
}
