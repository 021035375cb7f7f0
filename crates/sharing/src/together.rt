// The counts of gathered lines: one plan of the rule that they make together, and one walk.
// Where there may be too many choices nothing is counted, and the lines are judged one by one.
ghost use Rattle.std.specs.Prelude.{◌≡◌, ℕ, ◌≤◌, length, get_or};
ghost use Rattle.judging.specs.Code.Lent.{LentBy};
ghost use Rattle.sharing.specs.Code.Lines.{lines_limit};
ghost use Rattle.sharing.specs.Code.Laying.{Starts};
ghost use Rattle.sharing.specs.Code.Together.{Starting, Totals, Ranges, CountsTogether};

use crate::counting::below;
use crate::laying;
use crate::lines::{LINES, Place, WORDS, add, failed};
use judging::counting::entered;
use judging::planning::VARIABLE_COUNT;
use judging::{planning, walking};
use rules::{Parsed, RULE_LIMIT};
use walks::kept;

// The slots of few lines, and of as many as share a walk: 64 for each line and depth from 1 on, behind the rule's own.
const FEW_SLOTS: usize = 8;

const FEW_ROOM: usize = 4608;

const ROOM: usize = 15360;

// Where there may be more choices, each line is better off with an order of its own: three variables of 64 items each are not too many.
const MOST_CHOICES: u64 = 262144;

// The full choices, and each line's breaking ones, from nothing chosen.
fn all(
    t: &[u64],
    plan: &[u64],
    lines: &[u64],
    many: usize,
    kept: &mut [u64],
    breaking: &mut [u64],
) -> u64
    requires { Starting t.now plan.now lines.now many kept.old breaking.old }
    ensures { Totals t.now plan.now lines.now many breaking.new result }
{
    let mut cache = [0u64; RULE_LIMIT];
    entered(t, plan, 0, kept::NOTHING, &mut cache);
    let left = plan[VARIABLE_COUNT] as usize;
    let every = Place {
        active: words::all(many),
        many,
        left,
        choice: kept::NOTHING,
    };
    let closed = failed(plan, lines, every, 0, &cache);
    let open = Place {
        active: words::less(every.active, closed),
        many,
        left,
        choice: kept::NOTHING,
    };
    let mut under = [0u64; LINES];
    let full = below(t, plan, lines, open, &mut cache, kept, &mut under);
    add(every.active, closed, full, &under, breaking);
    full
}

// The counts of the lines whose clauses begin where `starts` says, where 1, 2, .. is an order of the variables; how many full choices there are.
// None where the lines were not counted.
pub fn counts(
    t: &[u64],
    parsed: Parsed,
    starts: &[u64],
    many: usize,
    breaking: &mut [u64],
) -> Option<u64>
    requires lent_by { LentBy t.now parsed × Starts starts.now many × Ranges parsed starts.now many × (many ≤ lines_limit) × (length breaking.old ≡ lines_limit) }
    requires by_index { (l : ℕ) → get_or breaking.old l 0 ≡ 0 }
    ensures { CountsTogether t.now parsed starts.now many breaking.new result }
{
    let count = parsed.count;
    let variables = [0u8, 1, 2, 3, 4, 5, 6, 7];
    let order = &variables[..count];
    let vars = parsed.vars;
    let names = values::names::names(&parsed.nodes, parsed.n, &vars[..count]);
    if !walks::ordered(&names, order, count) {
        return None;
    }
    let mut plan = [0u64; planning::LENGTH];
    let many_choices = walking::lay_first(t, parsed, order, &mut plan);
    // A line by itself sees at once that there is nothing to walk.
    if many_choices == 0 || MOST_CHOICES < many_choices {
        return None;
    }
    let mut lines = [0u64; WORDS * LINES];
    laying::lay(parsed, &plan, starts, many, &mut lines);
    if many * count <= FEW_SLOTS {
        let mut few = [0u64; FEW_ROOM];
        return Some(all(t, &plan, &lines, many, &mut few, breaking));
    }
    let mut kept = [0u64; ROOM];
    Some(all(t, &plan, &lines, many, &mut kept, breaking))
}
