// What is told of a rule before it is judged (document 02, N5): the length of its formula, and a ceiling on its full choices.
// Nothing is walked, and no formula is written.
#![tactic(auto)]

ghost use Rattle.std.specs.Prelude.{length};
ghost use Rattle.answers.specs.Answer.{wrote, lent};
ghost use Rattle.answers.specs.Written.{Answers};
ghost use Rattle.verdicts.specs.Code.Judging.{Loaded};
ghost use Rattle.forecasts.specs.Forecast.{two_words, forecast_of};
ghost use Rattle.forecasts.specs.Code.Telling.{ForecastsOn};

use answers::Refusal;
use rules::kinds::NO_KIND;
use rules::lengths::formula_length;
use rules::{CHOICES_LIMIT, RULE_LIMIT, Tree};
use tables::layout::WHOLE;
use values::ceiling::ceiling;
use verdicts::sheet::word_behind;

// A forecast is two words.
const WORD: usize = 8;

pub const FORECAST: usize = 2 * WORD;

// Writes the two words, or says that the lent output is too short for them.
fn put(size: u64, most: u64, out: &mut [u8]) -> Result<usize, Refusal>
    ensures { Answers (lent (length out.old) (wrote (two_words size most))) out.old out.new result }
{
    let mut words = [0u8; FORECAST];
    word_behind(0, size, &mut words);
    word_behind(WORD, most, &mut words);
    answers::lend(&words, out)
}

// The forecast of a rule's text on accepted tables, held as words.
fn on_tables(words: &[u64], rule: &[u8], out: &mut [u8]) -> Result<usize, Refusal>
    requires { Loaded words.now }
    ensures { ForecastsOn words.now rule.now out.old out.new result }
{
    let mut nodes = [0u32; RULE_LIMIT];
    let mut kinds = [NO_KIND; RULE_LIMIT];
    let mut vars = [0u32; CHOICES_LIMIT];
    let Tree { n, root, count } = rules::find(rule, &mut nodes, &mut kinds, &mut vars)?;
    let known = &vars[..count];
    let size = formula_length(&nodes, n, known, root) as u64;
    put(size, ceiling(words, &kinds, known), out)
}

// Tables are checked, then the rule; 17 comes last, and a refusal writes nothing.
pub fn forecast(tables: &[u8], rule: &[u8], out: &mut [u8]) -> Result<usize, Refusal>
    ensures { Answers (lent (length out.old) (forecast_of tables.now rule.now)) out.old out.new result }
{
    let mut words = [0u64; WHOLE];
    tables::load(tables, &mut words)?;
    on_tables(&words, rule, out)
}
