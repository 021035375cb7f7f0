// Full and breaking choices of several lines in one walk: the choices are gone through once, and each line's clauses looked at under them.
// A line drops out below a choice where its count is kept, and where one of its clauses is false: every full choice below breaks it then.
ghost use Rattle.std.specs.Prelude.{◌≡◌, List, ℕ, ◌<◌};
ghost use Rattle.sharing.specs.Code.Lines.{StandingFor, Keeping, StaysFor};

use crate::lines::{LINES, Place, add, failed, keep, known, looked};
use judging::counting;
use judging::planning::{ORDER, SETS, VARIABLE_COUNT};
use values::plan::settle;
use walks::kept;

// The full choices below a choice, and the breaking ones of each active line, whose counts are 0 before.
#[cycle(below_items)]
pub fn below(
    t: &[u64],
    plan: &[u64],
    lines: &[u64],
    at: Place,
    cache: &mut [u64],
    kept: &mut [u64],
    breaking: &mut [u64],
) -> u64
    requires { StandingFor t.now plan.now lines.now at.active at.many at.left at.choice cache.old kept.old breaking.old }
    ensures { StaysFor t.now plan.now lines.now at.active at.many at.left at.choice cache.old kept.old breaking.old cache.new kept.new breaking.new result }
{
    if at.active == 0 {
        return counting::below(
            t,
            plan,
            0,
            at.left,
            at.choice,
            cache,
            &mut kept[..kept::ROOM],
        )
        .full;
    }
    if at.left == 0 {
        return 1;
    }
    let d = plan[VARIABLE_COUNT] as usize - at.left;
    if d == 0 {
        return items(t, plan, lines, at, cache, kept, breaking);
    }
    let missing = looked(lines, at, d, &kept[..], breaking);
    if missing == 0 {
        return known(lines, at, d, words::lowest(at.active), &kept[..]);
    }
    let left = Place {
        active: missing,
        many: at.many,
        left: at.left,
        choice: at.choice,
    };
    let full = items(t, plan, lines, left, cache, kept, breaking);
    keep(lines, left, d, full, &breaking[..], kept);
    full
}

// The same, added over the items of the next variable.
#[cycle(below_items)]
fn items(
    t: &[u64],
    plan: &[u64],
    lines: &[u64],
    at: Place,
    cache: &mut [u64],
    kept: &mut [u64],
    breaking: &mut [u64],
) -> u64
    requires { StandingFor t.now plan.now lines.now at.active at.many at.left at.choice cache.old kept.old breaking.old × (0 < at.left) × (0 < at.active) }
    ensures { StaysFor t.now plan.now lines.now at.active at.many at.left at.choice cache.old kept.old breaking.old cache.new kept.new breaking.new result }
{
    if at.left == 1 {
        return last(t, plan, lines, at, cache, breaking);
    }
    let d = plan[VARIABLE_COUNT] as usize - at.left;
    let v = plan[ORDER + d] as usize;
    let mut rest = cache[plan[SETS + d] as usize];
    let mut full = 0;
    while rest != 0 {
        let x = words::lowest(rest);
        rest = words::less(rest, words::item(x));
        let chosen = kept::put(at.choice, v, x);
        settle(t, plan, chosen, cache, d + 1);
        let closed = failed(plan, lines, at, d + 1, &cache[..]);
        let next = Place {
            active: words::less(at.active, closed),
            many: at.many,
            left: at.left - 1,
            choice: chosen,
        };
        let mut under = [0u64; LINES];
        let sum = below(t, plan, lines, next, cache, kept, &mut under);
        add(at.active, closed, sum, &under, breaking);
        full += sum;
    }
    full
}

// The same of the last variable: each of its items is one full choice, which breaks the lines that have a false clause.
fn last(
    t: &[u64],
    plan: &[u64],
    lines: &[u64],
    at: Place,
    cache: &mut [u64],
    breaking: &mut [u64],
) -> u64
    requires { Keeping (λ kept. StandingFor t.now plan.now lines.now at.active at.many at.left at.choice cache.old kept breaking.old) × (at.left ≡ 1) × (0 < at.active) }
    ensures { (kept : List ℕ) → StaysFor t.now plan.now lines.now at.active at.many at.left at.choice cache.old kept breaking.old cache.new kept breaking.new result }
{
    let d = plan[VARIABLE_COUNT] as usize - at.left;
    let v = plan[ORDER + d] as usize;
    let mut rest = cache[plan[SETS + d] as usize];
    let none = [0u64; LINES];
    let mut full = 0;
    while rest != 0 {
        let x = words::lowest(rest);
        rest = words::less(rest, words::item(x));
        let chosen = kept::put(at.choice, v, x);
        settle(t, plan, chosen, cache, d + 1);
        let closed = failed(plan, lines, at, d + 1, &cache[..]);
        add(closed, closed, 1, &none, breaking);
        full += 1;
    }
    full
}
