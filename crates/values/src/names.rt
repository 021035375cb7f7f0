// What terms, and with them the sets of the variables, name, as words of variables.
ghost use Rattle.std.specs.Prelude.{◌≡◌, ℕ, ◌<◌, ◌≤◌, length, get_or};
ghost use Rattle.syntax.specs.Term.{Choices};
ghost use Rattle.syntax.specs.Code.Arena.{Tidy};
ghost use Rattle.words.specs.Words.{item_of};
ghost use Rattle.rules.specs.Accept.{rule_limit, choices_limit};
ghost use Rattle.rules.specs.Code.Variables.{place_in};
ghost use Rattle.values.specs.Code.Nodes.{NamesAt, NamesTo, SetsNamed, Variables, Named};

use rules::{CHOICES_LIMIT, RULE_LIMIT};
use syntax::nodes::{AO, FIRST_CALL, MEMBER, OE, left, operation, right};
use syntax::places::seek;

// The word of the variable whose argument is a node.
fn own(vars: &[u32], argument: u32) -> u64
    ensures { result ≡ item_of (place_in argument vars.now) }
{
    words::item(seek(vars, vars.len(), argument))
}

// The word of the variables that the term of node k names, from those of the nodes below it.
fn named(nodes: &[u32], n: usize, vars: &[u32], found: &[u64], k: usize) -> u64
    requires { Tidy nodes.now n × (k < n) × (k ≤ length found.now) × NamesTo nodes.now n vars.now found.now k }
    ensures { NamesAt nodes.now n vars.now k result }
{
    let node = nodes[k];
    let op = operation(node);
    if op < FIRST_CALL || MEMBER <= op {
        return 0;
    }
    let below = left(node);
    if op == OE {
        return own(vars, below);
    }
    let a = found[below as usize];
    if op < OE {
        return a;
    }
    if op == AO {
        return words::join(own(vars, below), a);
    }
    words::join(a, found[right(node) as usize])
}

// For each node the word of the variables that its term names, into lent words.
pub fn terms(nodes: &[u32], n: usize, vars: &[u32], found: &mut [u64])
    requires { Tidy nodes.now n × (n ≤ rule_limit) × (n ≤ length found.old) }
    ensures { NamesTo nodes.now n vars.now found.new n }
{
    for k in 0..n {
        found[k] = named(nodes, n, vars, found, k);
    }
}

// For each variable the word of those that its set names.
pub fn sets(found: &[u64], vars: &[u32]) -> [u64; CHOICES_LIMIT]
    requires { (length vars.now ≤ choices_limit) × ((i : ℕ) → i < length vars.now → get_or vars.now i 0 < length found.now) }
    ensures { SetsNamed found.now vars.now result }
{
    let mut words = [0u64; CHOICES_LIMIT];
    for (v, &node) in vars.iter().enumerate() {
        words[v] = found[node as usize];
    }
    words
}

// The same, from the nodes.
pub fn names(nodes: &[u32], n: usize, vars: &[u32]) -> [u64; CHOICES_LIMIT]
    requires { Tidy nodes.now n × (n ≤ rule_limit) × (length vars.now ≤ choices_limit) × ((i : ℕ) → i < length vars.now → get_or vars.now i 0 < n) }
    ensures { (σ : Choices) → Variables nodes.now n vars.now σ → Named (length vars.now) result σ }
{
    let mut found = [0u64; RULE_LIMIT];
    terms(nodes, n, vars, &mut found);
    sets(&found, vars)
}
