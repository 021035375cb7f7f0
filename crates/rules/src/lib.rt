// Rules: kinds, variables, lengths and the checks 11 to 15.
// A rule's tree is a slice of nodes, as crate syntax makes it.
#![tactic(auto)]

ghost use Rattle.std.specs.Prelude.{◌≡◌, ◌<◌, ◌≤◌, length};
ghost use Rattle.syntax.specs.Code.Arena.{Tidy};
ghost use Rattle.rules.specs.Accept.{rule_limit, choices_limit, refusal};
ghost use Rattle.answers.specs.Answer.{number_or_zero};
ghost use Rattle.answers.specs.Outcome.{outcome_number};
ghost use Rattle.rules.specs.Code.Parsed.{ChecksText, ChecksTree, Finds, Parses};

use answers::Refusal;

// A rule has at most so many bytes, so that its tree has at most so many nodes.
pub const RULE_LIMIT: usize = 256;

// A rule has at most so many variables.
pub const CHOICES_LIMIT: usize = 8;

pub mod depth;
pub mod kinds;
pub mod lengths;
pub mod variables;

// The tree of an accepted rule: its first n nodes with their kinds, the root, and the nodes of the variables.
#[derive(Clone, Copy)]
pub struct Parsed {
    pub nodes: [u32; RULE_LIMIT],
    pub n: usize,
    pub root: usize,
    pub kinds: [u8; RULE_LIMIT],
    pub vars: [u32; CHOICES_LIMIT],
    pub count: usize,
}

// Where a rule's tree is in lent nodes: how many they are, the root, and how many variables it has.
#[derive(Clone, Copy)]
pub struct Tree {
    pub n: usize,
    pub root: usize,
    pub count: usize,
}

// The checks 11 and 12, on the bytes alone.
fn check_text(s: &[u8]) -> Result<(), Refusal>
    ensures { ChecksText s.now result }
{
    if s.is_empty() || s.len() > RULE_LIMIT {
        return Err(Refusal::RuleLength);
    }
    if depth::too_deep(s) {
        return Err(Refusal::Deep);
    }
    Ok(())
}

// The checks 14 and 15 on the tree at root, with the kinds of its nodes and the nodes of its variables.
pub fn check_tree(
    nodes: &[u32],
    n: usize,
    root: usize,
    kinds: &mut [u8],
    vars: &mut [u32],
) -> Result<Tree, Refusal>
    requires tidy { Tidy nodes.now n }
    requires root_lt_n { root < n }
    requires n_in_bounds { n ≤ length kinds.old }
    requires vars_len { length vars.old ≡ choices_limit }
    ensures { ChecksTree nodes.now n root kinds.new vars.new result }
{
    if !kinds::kinds(nodes, n, root, kinds) {
        return Err(Refusal::KindMismatch);
    }
    let count = variables::walk(nodes, n, root, vars, 0);
    if count > CHOICES_LIMIT {
        return Err(Refusal::Choices);
    }
    Ok(Tree { n, root, count })
}

// The checks 11 to 15 in order: where they accept, the tree is in the lent nodes, with the kinds and the nodes of the variables.
pub fn find(
    s: &[u8],
    nodes: &mut [u32],
    kinds: &mut [u8],
    vars: &mut [u32],
) -> Result<Tree, Refusal>
    requires nodes_len { length nodes.old ≡ rule_limit }
    requires kinds_len { length kinds.old ≡ rule_limit }
    requires vars_len { length vars.old ≡ choices_limit }
    ensures { Finds s.now nodes.new kinds.new vars.new result }
{
    check_text(s)?;
    let Some(root) = syntax::rule(s, nodes) else {
        return Err(Refusal::NotARule);
    };
    check_tree(nodes, root.n, root.node, kinds, vars)
}

// The rule that s is the text of, or the refusal. No entry point: the answer is nodes, which only the crates above read.
pub fn parse(s: &[u8]) -> Result<Parsed, Refusal>
    ensures { Parses s.now result }
{
    let mut nodes = [0u32; RULE_LIMIT];
    let mut kinds = [kinds::NO_KIND; RULE_LIMIT];
    let mut vars = [0u32; CHOICES_LIMIT];
    let Tree { n, root, count } = find(s, &mut nodes, &mut kinds, &mut vars)?;
    Ok(Parsed {
        nodes,
        n,
        root,
        kinds,
        vars,
        count,
    })
}

// Document 01: the first refusal of 11 to 15, or accepted.
pub fn check(s: &[u8]) -> Result<(), Refusal>
    ensures { outcome_number result ≡ number_or_zero (refusal s.now) }
{
    parse(s)?;
    Ok(())
}
