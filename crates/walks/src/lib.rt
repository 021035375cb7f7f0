// The walk over choices: its tally, the test of an order, the share.
// Nothing here knows tables or rules: what a variable's set names is a word of variables.
#![tactic(auto)]

ghost use Rattle.std.specs.Prelude.{◌≡◌, true, ℕ, ◌<◌, ◌≤◌, ◌^◌, length, get_or, take};
ghost use Rattle.walks.specs.Order.{count, is_small, is_once, is_free, is_after, is_order, named_by, variable_of, variables_of};
ghost use Rattle.walks.specs.Share.{IsShare};

pub mod kept;

// What judging counts: full and breaking choices, and the first breaking one (255 where there is none).
#[derive(Clone, Copy)]
pub struct Tally {
    pub full: u64,
    pub breaking: u64,
    pub first: [u8; 8],
}

// The variable that a byte of an order numbers: v1 is the variable 0, and 0 numbers none.
fn variable_of(b: u8) -> u8
    ensures { result ≡ variable_of b }
{
    if b == 0 {
        return 255;
    }
    b - 1
}

// The variables that the bytes of an order number.
pub fn variables(order: &[u8]) -> [u8; 8]
    requires { length order.now ≤ 8 }
    ensures { take (length order.now) result ≡ variables_of order.now }
{
    let mut vs = [255u8; 8];
    for (i, &b) in order.iter().enumerate() {
        vs[i] = variable_of(b);
    }
    vs
}

// Each variable of the order is below n.
fn small(order: &[u8], n: usize) -> bool
    ensures { result ≡ is_small n order.now }
{
    order.iter().all(|&v| (v as usize) < n)
}

// How often u stands in the order.
fn times(order: &[u8], u: usize) -> usize
    ensures { result ≡ count u order.now }
{
    order.iter().filter(|&&v| u == v as usize).count()
}

// Each variable below n stands in the order once.
fn once(order: &[u8], n: usize) -> bool
    ensures { result ≡ is_once n order.now }
{
    (0..n).all(|k| times(order, k) == 1)
}

// The set of v names none of those variables.
fn free(names: &[u64], v: usize, later: &[u8]) -> bool
    requires { (v < length names.now) × ((k : ℕ) → get_or later.now k 0 < 8) }
    ensures { result ≡ is_free (named_by names.now) v later.now }
{
    let word = names[v];
    later.iter().all(|&w| !words::contains(word, w as usize))
}

// Every variable of the order comes after those its set names.
#[tactic(auto, using(crate::proofs::LoopLaws::after_end, crate::proofs::LoopLaws::after_stop, crate::proofs::LoopLaws::after_go))]
fn after(names: &[u64], order: &[u8]) -> bool
    requires { (length names.now ≡ 8) × ((k : ℕ) → get_or order.now k 0 < 8) }
    ensures { result ≡ is_after (named_by names.now) order.now }
{
    for (i, &v) in order.iter().enumerate() {
        if !free(names, v as usize, &order[i..]) {
            return false;
        }
    }
    true
}

// Whether it is an order of n variables, where names[v] is the word of the variables that the set of v names.
#[tactic(auto, using(crate::proofs::OrderLaws::small_at), unfolding(crate::specs::Order::is_order))]
pub fn ordered(names: &[u64], order: &[u8], n: usize) -> bool
    requires { (length names.now ≡ 8) × (n ≤ 8) }
    ensures { result ≡ is_order (named_by names.now) n order.now }
{
    small(order, n) && once(order, n) && after(names, order)
}

// Whether two orders begin with the same k variables.
pub fn begins_alike(a: &[u8], b: &[u8], k: usize) -> bool
    requires { (k ≤ length a.now) × (k ≤ length b.now) }
    ensures { result ≡ true → take k a.now ≡ take k b.now }
{
    a[..k] == b[..k]
}

// 100 × breaking / full to the nearest whole, an exact half to the even neighbour; 255 where there is none.
pub fn share(full: u64, breaking: u64) -> u8
    requires { (breaking ≤ full) × (full ≤ 64 ^ 8) }
    ensures { IsShare full breaking result }
{
    if full == 0 {
        return 255;
    }
    let whole = 100 * breaking / full;
    let twice = 2 * (100 * breaking % full);
    if twice < full {
        return whole as u8;
    }
    if twice == full {
        return (whole + whole % 2) as u8;
    }
    (whole + 1) as u8
}
