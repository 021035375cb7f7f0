// The lines of a walk, one by one: which of them have a false clause, what is kept of their counts, and adding to these.
// A line is an item of a word; its own words are masks by depth, and where its clauses begin and end.
ghost use Rattle.std.specs.Prelude.{◌≡◌, true, ℕ, ◌+◌, ◌-◌, ◌*◌, ◌^◌, ◌<◌, ◌≤◌, length, get_or};
ghost use Rattle.words.specs.Words.{has, meet_of};
ghost use Rattle.values.specs.Code.Plan.{plan_room, Runs};
ghost use Rattle.sharing.specs.Code.Lines.{lines_limit, lines_length, whole_slots, slot_for, mask_of, Lines, Ranged, Fails, Adds, HitFor, Looks, KeepsFor};

use values::plan::holds_among;
use walks::kept;
use walks::kept::Counts;

// So many lines share a walk at the most.
pub const LINES: usize = 32;

// How many words each line has, and where its clauses begin and end. A mask stands at its depth.
pub const WORDS: usize = 16;

pub const FROM: usize = 8;

pub const TO: usize = 9;

// How many slots the rule's own counts have, which stand in front; and one line's at one depth.
const WHOLE_SLOTS: usize = 1024;

const ITEMS: usize = 64;

const NO_ITEM: u64 = 255;

// Where the walk stands: the lines that are counted, out of so many; how many variables are left; the choice.
#[derive(Clone, Copy)]
pub struct Place {
    pub active: u64,
    pub many: usize,
    pub left: usize,
    pub choice: u64,
}

// The lines that have a false clause of a level, whose values the cache has.
pub fn failed(plan: &[u64], lines: &[u64], at: Place, level: usize, cache: &[u64]) -> u64
    requires { Runs plan.now × (length cache.now ≡ plan_room) × Lines at.active at.many × Ranged plan.now lines.now at.many }
    ensures { Fails plan.now lines.now cache.now at.active level result }
{
    let mut found = 0;
    let mut rest = at.active;
    while rest != 0 {
        let l = words::lowest(rest);
        rest = words::less(rest, words::item(l));
        let from = lines[WORDS * l + FROM] as usize;
        let to = lines[WORDS * l + TO] as usize;
        if !holds_among(plan, cache, level, from, to) {
            found = words::join(found, words::item(l));
        }
    }
    found
}

// Adds to the count of each line what is below a choice: the count found there or, for the lines that are closed, all full choices.
pub fn add(active: u64, closed: u64, full: u64, under: &[u64], breaking: &mut [u64])
    requires lines { Lines active lines_limit × (full ≤ 64 ^ 8) × (length under.now ≡ lines_limit) × (length breaking.old ≡ lines_limit) }
    requires by_index { (l : ℕ) → has active l ≡ true → (get_or under.now l 0 ≤ 64 ^ 8) × (get_or breaking.old l 0 ≤ 64 ^ 8) }
    ensures { Adds active closed full under.now breaking.old breaking.new }
{
    let mut rest = active;
    while rest != 0 {
        let l = words::lowest(rest);
        rest = words::less(rest, words::item(l));
        let more = if words::contains(closed, l) {
            full
        } else {
            under[l]
        };
        breaking[l] += more;
    }
}

// The slot of a line's key at a depth from 1 on.
fn slot(many: usize, d: usize, l: usize, key: u64) -> usize
    requires { (many ≤ lines_limit) × (0 < d) × (d < 8) × (l < lines_limit) }
    ensures { (result ≡ slot_for many (d - 1) l key) × (result < 65536) }
{
    WHOLE_SLOTS + (ITEMS * (many * (d - 1) + l) + (key % NO_ITEM) as usize % ITEMS)
}

// Puts the counts in place that are kept of the active lines; the lines of which none is.
pub fn looked(lines: &[u64], at: Place, d: usize, kept: &[u64], breaking: &mut [u64]) -> u64
    requires { Lines at.active at.many × (length lines.now ≡ lines_length) × (0 < d) × (d < 8) × (length breaking.old ≡ lines_limit) }
    ensures { Looks lines.now kept.now at.many (d - 1) at.active at.choice breaking.old breaking.new result }
{
    let mut missing = 0;
    let mut rest = at.active;
    while rest != 0 {
        let l = words::lowest(rest);
        rest = words::less(rest, words::item(l));
        let key = words::meet(at.choice, lines[WORDS * l + d]);
        let place = slot(at.many, d, l, key);
        match kept::found(kept, place, key) {
            Some(counts) => breaking[l] = counts.breaking,
            None => missing = words::join(missing, words::item(l)),
        }
    }
    missing
}

// The full count that is kept of a line.
pub fn known(lines: &[u64], at: Place, d: usize, l: usize, kept: &[u64]) -> u64
    requires many_le_lines_limit { (at.many ≤ lines_limit) × (length lines.now ≡ lines_length) × (0 < d) × (d < 8) × (l < lines_limit) }
    requires hit_for { HitFor lines.now kept.now at.many (d - 1) l at.choice (get_or kept.now (3 * slot_for at.many (d - 1) l (meet_of at.choice (mask_of lines.now l (d - 1 + 1))) + 1) 0) }
    ensures { result ≡ get_or kept.now (3 * slot_for at.many (d - 1) l (meet_of at.choice (mask_of lines.now l (d - 1 + 1)))) 0 - 1 }
{
    let key = words::meet(at.choice, lines[WORDS * l + d]);
    kept::taken(kept, slot(at.many, d, l, key)).full
}

// Keeps the counts of the active lines.
pub fn keep(lines: &[u64], at: Place, d: usize, full: u64, breaking: &[u64], kept: &mut [u64])
    requires { Lines at.active at.many × (length lines.now ≡ lines_length) × (0 < d) × (d < 8) × (full ≤ 64 ^ 8) × (length breaking.now ≡ lines_limit) }
    ensures { KeepsFor lines.now at.many (d - 1) at.active at.choice full breaking.now kept.old kept.new }
{
    let mut rest = at.active;
    while rest != 0 {
        let l = words::lowest(rest);
        rest = words::less(rest, words::item(l));
        let key = words::meet(at.choice, lines[WORDS * l + d]);
        let breaks = breaking[l];
        let counts = Counts {
            full,
            breaking: breaks,
        };
        kept::keep(kept, slot(at.many, d, l, key), counts, key);
    }
}
