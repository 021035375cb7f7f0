// Full and breaking choices by a plan: a clause is looked at once its last variable is chosen, and what was counted is kept.
// Judging calls itself for the next variable, with a falling number of variables left, adding full and breaking counts.
ghost use Rattle.std.specs.Prelude.{◌≡◌, ◌<◌, length};
ghost use Rattle.tables.specs.Code.Layout.{Whole};
ghost use Rattle.values.specs.Code.Plan.{plan_room, plan_length, Runs};
ghost use Rattle.judging.specs.Code.Counting.{SlotOf, Enters, EntersTo, Standing, Counts as Counted, Finds};

use crate::planning::{MASKS, ORDER, SETS, VARIABLE_COUNT};
use values::plan::{holds, settle};
use walks::kept;
use walks::kept::Counts;

// How many items there may be, and the byte of a variable that has none yet.
const ITEMS: u64 = 64;

const NO_ITEM: u64 = 255;

// The slot of a key: one for each mode and depth, by the sum of the key's items. A byte of 255 has no item, and adds nothing.
fn slot(at: usize, key: u64) -> usize
    requires { at < 16 }
    ensures { SlotOf at result }
{
    kept::PLACES * ((key % NO_ITEM % ITEMS) as usize) + at
}

// One level more: its nodes are evaluated and, where no clause is false yet, its clauses looked at. The mode is 0 from the first false one on.
pub fn enter(
    t: &[u64],
    plan: &[u64],
    mode: usize,
    level: usize,
    choice: u64,
    cache: &mut [u64],
) -> usize
    requires { Whole t.now × Runs plan.now × (length cache.old ≡ plan_room) × (level < 9) × (mode < 2) }
    ensures { Enters t.now plan.now mode level choice cache.old cache.new result }
{
    settle(t, plan, choice, cache, level);
    if mode == 0 {
        return 0;
    }
    if holds(plan, &cache[..], level) {
        return 1;
    }
    0
}

// The counts below a choice: those that are kept, or those of the next variable's items. Where a clause is false already, the last
// variable needs no walk.
#[cycle(below_items)]
pub fn below(
    t: &[u64],
    plan: &[u64],
    mode: usize,
    left: usize,
    choice: u64,
    cache: &mut [u64],
    kept: &mut [u64],
) -> Counts
    requires { Standing t.now plan.now mode left choice cache.old kept.old }
    ensures { Counted t.now plan.now mode left choice cache.old kept.old cache.new kept.new result.full result.breaking }
{
    if left == 0 {
        return Counts {
            full: 1,
            breaking: (1 - mode) as u64,
        };
    }
    let d = plan[VARIABLE_COUNT] as usize - left;
    if mode + left == 1 {
        let size = words::size(cache[plan[SETS + d] as usize]) as u64;
        return Counts {
            full: size,
            breaking: size,
        };
    }
    let at = 8 * mode + d;
    let key = words::meet(choice, plan[MASKS + at]);
    let place = slot(at, key);
    if let Some(sum) = kept::found(&kept[..], place, key) {
        return sum;
    }
    let sum = items(t, plan, mode, left, choice, cache, kept);
    kept::keep(kept, place, sum, key);
    sum
}

// The counts below the items of the next variable, added.
#[cycle(below_items)]
fn items(
    t: &[u64],
    plan: &[u64],
    mode: usize,
    left: usize,
    choice: u64,
    cache: &mut [u64],
    kept: &mut [u64],
) -> Counts
    requires { Standing t.now plan.now mode left choice cache.old kept.old × (0 < left) }
    ensures { Counted t.now plan.now mode left choice cache.old kept.old cache.new kept.new result.full result.breaking }
{
    let d = plan[VARIABLE_COUNT] as usize - left;
    let v = plan[ORDER + d] as usize;
    let mut rest = cache[plan[SETS + d] as usize];
    let mut full = 0;
    let mut breaking = 0;
    while rest != 0 {
        let x = words::lowest(rest);
        rest = words::less(rest, words::item(x));
        let chosen = kept::put(choice, v, x);
        let next = enter(t, plan, mode, d + 1, chosen, cache);
        let sum = below(t, plan, next, left - 1, chosen, cache, kept);
        full += sum.full;
        breaking += sum.breaking;
    }
    Counts { full, breaking }
}

// The smallest item of the next variable below which something breaks. What was counted before is mostly kept still.
pub fn least(
    t: &[u64],
    plan: &[u64],
    mode: usize,
    left: usize,
    choice: u64,
    cache: &mut [u64],
    kept: &mut [u64],
) -> usize
    requires { Standing t.now plan.now mode left choice cache.old kept.old × (0 < left) }
    ensures { Finds t.now plan.now mode left choice cache.old kept.old cache.new kept.new result }
{
    let d = plan[VARIABLE_COUNT] as usize - left;
    let v = plan[ORDER + d] as usize;
    let mut rest = cache[plan[SETS + d] as usize];
    while rest != 0 {
        let x = words::lowest(rest);
        rest = words::less(rest, words::item(x));
        let chosen = kept::put(choice, v, x);
        let next = enter(t, plan, mode, d + 1, chosen, cache);
        let under = below(t, plan, next, left - 1, chosen, cache, kept);
        if under.breaking != 0 {
            return x;
        }
    }
    0
}

// The levels up to d, one after the other, under a choice of the first d variables; the mode that follows.
pub fn entered(t: &[u64], plan: &[u64], d: usize, choice: u64, cache: &mut [u64]) -> usize
    requires { Whole t.now × Runs plan.now × (length cache.old ≡ plan_room) × (d < 9) }
    ensures { EntersTo t.now plan.now d choice cache.old cache.new result }
{
    let mut mode = 1;
    for level in 0..=d {
        mode = enter(t, plan, mode, level, choice, cache);
    }
    mode
}
