// Judging a rule: its counts along an order of our own, and the first breaking choice along the caller's.
// A plan is laid for the counts, and another wherever the caller's order goes on with another variable than the plan.
ghost use Rattle.std.specs.Prelude.{◌≡◌, ◌+◌, ◌<◌, ◌≤◌, length};
ghost use Rattle.values.specs.Code.Plan.{plan_length};
ghost use Rattle.values.specs.Code.Multiplied.{CeilingBy};
ghost use Rattle.judging.specs.Code.Planning.{Laid, Plans};
ghost use Rattle.judging.specs.Code.Counting.{no_choice};
ghost use Rattle.judging.specs.Code.Walking.{Ordered, Lays, Sound, Stands, Descends, CountsBy, WalksBy};
ghost use Rattle.judging.specs.Code.Lent.{vars_of, LentBy};

use crate::counting::{below, enter, entered, least};
use crate::planning;
use crate::planning::ORDER;
use rules::{Parsed, RULE_LIMIT};
use values::ceiling::ceiling;
use walks::{Tally, kept};

// So few choices do with few slots.
const FEW: u64 = 128;

// Lays the plan along an order.
fn lay_along(parsed: &Parsed, order: &[u8], plan: &mut [u64])
    requires { Laid parsed.now.nodes parsed.now.n parsed.now.kinds (vars_of parsed.now) parsed.now.root order.now × (parsed.now.count ≤ 8) × (length plan.old ≡ plan_length) }
    ensures { Plans parsed.now.nodes parsed.now.n parsed.now.kinds (vars_of parsed.now) parsed.now.root order.now plan.new }
{
    planning::plan(
        &parsed.nodes,
        parsed.n,
        &parsed.kinds,
        &parsed.vars[..parsed.count],
        parsed.root,
        order,
        plan,
    );
}

// What is walked: the parsed rule and the caller's order. The tables stand beside it: in a struct the compiler would not see how long they are.
#[derive(Clone, Copy)]
struct Walk<'a> {
    parsed: &'a Parsed,
    order: &'a [u8],
}

// What the walk goes by: the plan, and the cache that goes with it.
#[derive(Drop)]
struct Guide {
    plan: [u64; planning::LENGTH],
    cache: [u64; RULE_LIMIT],
}

impl Walk<'_> {
    // Lays the plan along an order of our own that begins with the first `begun` variables of the caller's, where one was found, or along the caller's.
    fn lay(&self, t: &[u64], begun: usize, plan: &mut [u64])
        requires { Sound t.now self.now × (begun ≤ length self.now.order.now) × (length plan.old ≡ plan_length) }
        ensures { Lays t.now self.now.parsed.now self.now.order.now begun plan.new }
    {
        let parsed = self.parsed;
        let vars = &parsed.vars[..parsed.count];
        let found = orders::own(t, &plan[..], self.order, begun);
        let own = &found[..vars.len()];
        let names = values::names::names(&parsed.nodes, parsed.n, vars);
        if walks::ordered(&names, own, vars.len()) && walks::begins_alike(own, self.order, begun) {
            lay_along(parsed, own, plan);
        } else {
            lay_along(parsed, self.order, plan);
        }
    }
}

// The plan for the counts: along the caller's order, unless another is worth it. The ceiling on full choices.
pub fn lay_first(t: &[u64], parsed: Parsed, order: &[u8], plan: &mut [u64]) -> u64
    requires { LentBy t.now parsed × Ordered parsed order.now × (length plan.old ≡ plan_length) }
    ensures lays { Lays t.now parsed order.now 0 plan.new }
    ensures ceiling_by { CeilingBy t.now parsed.kinds (vars_of parsed) result }
{
    lay_along(&parsed, order, plan);
    let many = ceiling(t, &parsed.kinds, &parsed.vars[..parsed.count]);
    if orders::SEARCHED_FROM <= many && orders::worth(t, &plan[..], order) {
        let walk = Walk {
            parsed: &parsed,
            order,
        };
        walk.lay(t, 0, plan);
    }
    many
}

// Where the descent is: the first variables of the caller's order have their items, and the mode goes with them.
#[derive(Clone, Copy)]
pub struct Place {
    pub depth: usize,
    pub choice: u64,
    pub mode: usize,
}

impl Guide {
    // The plan goes on with the caller's next variable: the one at hand, or another, by which nothing is kept yet. The mode along it.
    fn turn(&mut self, t: &[u64], walk: &Walk<'_>, place: Place, kept: &mut [u64]) -> usize
        requires { Sound t.now walk.now × (place.depth < length walk.now.order.now) × Stands t.now walk.now place.depth place.depth place.mode place.choice self.old kept.old }
        ensures { Stands t.now walk.now (place.depth + 1) place.depth result place.choice self.new kept.new }
    {
        let d = place.depth;
        if self.plan[ORDER + d] == walk.order[d] as u64 {
            return place.mode;
        }
        walk.lay(t, d + 1, &mut self.plan);
        kept::clear(kept);
        entered(t, &self.plan, d, place.choice, &mut self.cache)
    }

    // The first breaking choice, variable by variable along the caller's order: the least item below which something breaks.
    fn descend(&mut self, t: &[u64], walk: &Walk<'_>, mode: usize, kept: &mut [u64]) -> u64
        requires { Sound t.now walk.now × Stands t.now walk.now 0 0 mode no_choice self.old kept.old }
        ensures { Descends t.now walk.now (length walk.now.order.now) result }
    {
        let order = walk.order;
        let mut choice = kept::NOTHING;
        let mut at = mode;
        for (depth, &v) in order.iter().enumerate() {
            let place = Place {
                depth,
                choice,
                mode: at,
            };
            let here = self.turn(t, walk, place, kept);
            let x = least(
                t,
                &self.plan,
                here,
                order.len() - depth,
                choice,
                &mut self.cache,
                kept,
            );
            choice = kept::put(choice, v as usize, x);
            at = enter(t, &self.plan, here, depth + 1, choice, &mut self.cache);
        }
        choice
    }

    // The counts below nothing chosen, and the first breaking choice.
    fn counted(&mut self, t: &[u64], walk: &Walk<'_>, mode: usize, kept: &mut [u64]) -> Tally
        requires { Sound t.now walk.now × Stands t.now walk.now 0 0 mode no_choice self.old kept.old }
        ensures { WalksBy t.now walk.now.parsed.now walk.now.order.now result }
    {
        let sum = below(
            t,
            &self.plan,
            mode,
            walk.order.len(),
            kept::NOTHING,
            &mut self.cache,
            kept,
        );
        if sum.breaking == 0 {
            return Tally {
                full: sum.full,
                breaking: 0,
                first: [255u8; 8],
            };
        }
        let first = kept::bytes(self.descend(t, walk, mode, kept));
        Tally {
            full: sum.full,
            breaking: sum.breaking,
            first,
        }
    }
}

// Judging along an order, from nothing chosen. Where a variable has no item there is nothing to walk, however many the others have. A rule without
// variables has one choice, and nothing to keep.
pub fn whole(t: &[u64], parsed: Parsed, order: &[u8]) -> Tally
    requires { LentBy t.now parsed × Ordered parsed order.now }
    ensures { WalksBy t.now parsed order.now result }
{
    let mut guide = Guide {
        plan: [0; planning::LENGTH],
        cache: [0; RULE_LIMIT],
    };
    let many = lay_first(t, parsed, order, &mut guide.plan);
    if many == 0 {
        return known(t, parsed, order, 0, 0);
    }
    let mode = entered(t, &guide.plan, 0, kept::NOTHING, &mut guide.cache);
    if order.is_empty() {
        return Tally {
            full: 1,
            breaking: (1 - mode) as u64,
            first: [255u8; 8],
        };
    }
    let walk = Walk {
        parsed: &parsed,
        order,
    };
    if many < FEW {
        let mut few = [0u64; kept::FEW_ROOM];
        return guide.counted(t, &walk, mode, &mut few);
    }
    let mut kept = [0u64; kept::ROOM];
    guide.counted(t, &walk, mode, &mut kept)
}

// The tally of a rule whose counts are known already.
pub fn known(t: &[u64], parsed: Parsed, order: &[u8], full: u64, breaking: u64) -> Tally
    requires { LentBy t.now parsed × Ordered parsed order.now × CountsBy t.now parsed order.now full breaking }
    ensures { WalksBy t.now parsed order.now result }
{
    if breaking == 0 {
        return Tally {
            full,
            breaking: 0,
            first: [255u8; 8],
        };
    }
    let mut guide = Guide {
        plan: [0; planning::LENGTH],
        cache: [0; RULE_LIMIT],
    };
    lay_first(t, parsed, order, &mut guide.plan);
    let mode = entered(t, &guide.plan, 0, kept::NOTHING, &mut guide.cache);
    let walk = Walk {
        parsed: &parsed,
        order,
    };
    let mut kept = [0u64; kept::ROOM];
    let first = kept::bytes(guide.descend(t, &walk, mode, &mut kept));
    Tally {
        full,
        breaking,
        first,
    }
}
