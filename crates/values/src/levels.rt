// The levels of nodes by an order of the variables, and the chain of the nodes of each level.
// A node's value is settled once the variables up to its level are chosen.
ghost use Rattle.std.specs.Prelude.{◌≡◌, ℕ, ◌<◌, ◌≤◌, List, length, get_or};
ghost use Rattle.words.specs.Words.{has};
ghost use Rattle.rules.specs.Accept.{rule_limit, choices_limit};
ghost use Rattle.values.specs.Code.Nodes.{NamesTo};
ghost use Rattle.values.specs.Code.Levels.{Level, Levels, level_count, Chained};

use rules::{CHOICES_LIMIT, RULE_LIMIT};

// The levels: none chosen, and as many as there may be variables.
pub const LEVELS: usize = CHOICES_LIMIT + 1;

// How many variables of the order stand up to the last one that the word has.
pub fn level(word: u64, order: &[u8]) -> u8
    requires { (length order.now ≤ choices_limit) × ((i : ℕ) → i < length order.now → get_or order.now i 0 < 64) }
    ensures { Level order.now (has word) result }
{
    order
        .iter()
        .rposition(|&v| words::contains(word, v as usize))
        .map_or(0, |i| i as u8 + 1)
}

// For each node the level of what its term names.
pub fn levels(names: &[u64], n: usize, order: &[u8]) -> [u8; RULE_LIMIT]
    requires { (n ≤ rule_limit) × (n ≤ length names.now) × (length order.now ≤ choices_limit) × ((i : ℕ) → i < length order.now → get_or order.now i 0 < 64) }
    ensures { (ns vs : List ℕ) → NamesTo ns n vs names.now n → Levels ns n vs order.now result }
{
    let mut found = [0u8; RULE_LIMIT];
    for (k, &word) in names[..n].iter().enumerate() {
        found[k] = level(word, order);
    }
    found
}

// The chain of the nodes of each level, from the lowest up, into lent words; where each starts. It is made from the last node down.
pub fn chain(levels: &[u8], n: usize, next: &mut [u32]) -> [u32; LEVELS]
    requires { (n ≤ rule_limit) × (n ≤ length levels.now) × (length next.old ≡ rule_limit) × ((k : ℕ) → k < n → get_or levels.now k 0 < level_count) }
    ensures { Chained n levels.now result next.new }
{
    let end = n as u32;
    let mut first = [end; LEVELS];
    for k in (0..n).rev() {
        let d = levels[k] as usize;
        next[k] = first[d];
        first[d] = k as u32;
    }
    first
}
