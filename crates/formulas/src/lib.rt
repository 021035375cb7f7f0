// Rule text to formula text, and formula text back to rule text.
// Nothing is written to the output before it is known that the answer has room there.
#![tactic(auto)]

ghost use Rattle.std.specs.Prelude.{◌≡◌, [], ◌<◌, length};
ghost use Rattle.answers.specs.Answer.{lent};
ghost use Rattle.syntax.specs.Rule.{Rule, rule_text};
ghost use Rattle.syntax.specs.Code.Arena.{HoldsRule, Tidy};
ghost use Rattle.rules.specs.Code.Lengths.{capped};
ghost use Rattle.formulas.specs.Formulas.{reduced, RebuildAnswers};
ghost use Rattle.answers.specs.Written.{Answers};

use answers::Refusal;
use printer::rules::{write_formula, write_rule};
use rules::kinds::NO_KIND;
use rules::lengths::{formula_length, length_at, lengths};
use rules::{CHOICES_LIMIT, RULE_LIMIT, Tree};

// No formula has more bytes, so that its tree has no more nodes.
const FORMULA_LIMIT: usize = 4096;

// No rule has more, as `lengths` measures.
const LENGTH_LIMIT: u32 = RULE_LIMIT as u32;

// Rule to formula: 11 to 15, then 17. The formula's length is known before it is written, and it is written straight into the output.
pub fn reduce(rule: &[u8], out: &mut [u8]) -> Result<usize, Refusal>
    ensures { Answers (lent (length out.old) (reduced rule.now)) out.old out.new result }
{
    let mut nodes = [0u32; RULE_LIMIT];
    let mut kinds = [NO_KIND; RULE_LIMIT];
    let mut vars = [0u32; CHOICES_LIMIT];
    let Tree { n, root, count } = rules::find(rule, &mut nodes, &mut kinds, &mut vars)?;
    let known = &vars[..count];
    let l = formula_length(&nodes, n, known, root) as usize;
    if out.len() < l {
        return Err(Refusal::ShortSheet);
    }
    Ok(write_formula(&nodes, root, known, out))
}

// How long the rule at a node is where it is written. It is measured and not written, however deep the tree is.
fn rule_length(nodes: &[u32], n: usize, root: usize) -> u32
    requires tidy { Tidy nodes.now n }
    requires root_lt_n { root < n }
    ensures { (ρ : Rule) → HoldsRule nodes.now root ρ → result ≡ capped (length (rule_text [] ρ)) }
{
    let mut lens = [0u16; FORMULA_LIMIT];
    lengths(nodes, n, &[], &mut lens);
    length_at(&lens, root)
}

// Formula to rule: 16, then 17. The candidate is the tree's own text, kept where its formula is the input byte for byte.
// The stack stays small: no accepted rule's formula is deeper than check 12 lets a rule be, so deeper ones are turned away before anything is read;
// and no rule has more than 256 bytes, so that a tree whose text would be longer, which may be deep, is not written.
pub fn rebuild(formula: &[u8], out: &mut [u8]) -> Result<usize, Refusal>
    ensures { RebuildAnswers formula.now out.old out.new result }
{
    if formula.len() > FORMULA_LIMIT {
        return Err(Refusal::NoRulesFormula);
    }
    if rules::depth::too_deep(formula) {
        return Err(Refusal::NoRulesFormula);
    }
    let mut nodes = [0u32; FORMULA_LIMIT];
    let Some(root) = syntax::formula(formula, &mut nodes) else {
        return Err(Refusal::NoRulesFormula);
    };
    if rule_length(&nodes, root.n, root.node) > LENGTH_LIMIT {
        return Err(Refusal::NoRulesFormula);
    }
    let mut text = [0u8; RULE_LIMIT];
    let l = write_rule(&nodes, root.node, &[], &mut text);
    let mut sheet = [0u8; FORMULA_LIMIT];
    let Ok(m) = reduce(&text[..l], &mut sheet) else {
        return Err(Refusal::NoRulesFormula);
    };
    if &sheet[..m] != formula {
        return Err(Refusal::NoRulesFormula);
    }
    answers::lend(&text[..l], out)
}
