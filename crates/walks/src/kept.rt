// A choice in one word, a byte for each variable, and counts that are kept with the choice that they were counted under.
ghost use Rattle.std.specs.Prelude.{◌≡◌, ◌+◌, ◌-◌, ◌*◌, ◌^◌, ◌<◌, ◌≤◌, length, get_or, set, IfSome};
ghost use Rattle.walks.specs.Code.Kept.{choice_of, Masks, Found, Keeping, Unwritten};

// The word of no choice: each byte is 255.
pub const NOTHING: u64 = u64::MAX;

// What is kept of a full count is one more than it, so that a slot of zeros is one that was not written.
const UNWRITTEN: u64 = 0;

// A slot for each of 8 depths and 2 modes, and as many for each item. How many numbers the slots of all 64 items have, and those of the first 8.
pub const PLACES: usize = 16;

pub const ROOM: usize = 3072;

pub const FEW_ROOM: usize = 384;

const BITS: usize = 8;

const BYTE: u64 = 255;

// How many numbers an entry has: full, breaking, the choice.
const ENTRY: usize = 3;

#[derive(Clone, Copy)]
pub struct Counts {
    pub full: u64,
    pub breaking: u64,
}

// The item of the variable v.
pub fn byte(choice: u64, v: usize) -> usize
    requires { v < 8 }
    ensures { result ≡ get_or (choice_of choice) v 0 }
{
    ((choice >> (BITS * v)) % (BYTE + 1)) as usize
}

// The items of all variables, as bytes.
pub fn bytes(choice: u64) -> [u8; 8]
    ensures { result ≡ choice_of choice }
{
    choice.to_le_bytes()
}

// The choice with x put at the variable v.
pub fn put(choice: u64, v: usize, x: usize) -> u64
    requires { (v < 8) × (x < 256) }
    ensures { choice_of result ≡ set (choice_of choice) v x }
{
    let at = BITS * v;
    words::join(words::less(choice, BYTE << at), (x as u64) << at)
}

// All the bits of the bytes of those variables.
pub fn spread(word: u64) -> u64
    ensures { Masks word result }
{
    if word == 0 {
        return 0;
    }
    let mut mask = 0;
    for u in 0..8 {
        if words::contains(word, u) {
            mask = words::join(mask, BYTE << (BITS * u));
        }
    }
    mask
}

// The counts of a slot, where there is such a slot and it was written under that key.
pub fn found(kept: &[u64], slot: usize, key: u64) -> Option<Counts>
    requires { slot < 65536 }
    ensures { IfSome result (λ c. Found kept.now slot key c.full c.breaking) }
{
    let at = ENTRY * slot;
    if at + 2 < kept.len() && kept[at] != UNWRITTEN && kept[at + 2] == key {
        return Some(taken(kept, slot));
    }
    None
}

// What the slot has, which was written.
pub fn taken(kept: &[u64], slot: usize) -> Counts
    requires { (slot < 65536) × (3 * slot + 2 < length kept.now) × (0 < get_or kept.now (3 * slot) 0) }
    ensures { (result.full ≡ get_or kept.now (3 * slot) 0 - 1) × (result.breaking ≡ get_or kept.now (3 * slot + 1) 0) }
{
    let at = ENTRY * slot;
    let full = kept[at] - 1;
    let breaking = kept[at + 1];
    Counts { full, breaking }
}

// An entry is written, where there is such a slot.
pub fn keep(kept: &mut [u64], slot: usize, counts: Counts, key: u64)
    requires { (slot < 65536) × (counts.full ≤ 64 ^ 8) }
    ensures { Keeping kept.old kept.new slot counts.full counts.breaking key }
{
    let at = ENTRY * slot;
    if kept.len() <= at + 2 {
        return;
    }
    kept[at] = counts.full + 1;
    kept[at + 1] = counts.breaking;
    kept[at + 2] = key;
}

// Nothing is kept any more.
pub fn clear(kept: &mut [u64])
    ensures { (length kept.new ≡ length kept.old) × Unwritten (length kept.old) kept.new }
{
    kept.fill(UNWRITTEN);
}
