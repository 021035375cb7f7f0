// Values of terms and truth of rules under a choice, as words.
// Nodes, kinds and variables are slices as crate rules makes them; a choice has an item for each variable.
#![tactic(auto)]

mod calls;
pub mod ceiling;
pub mod items;
pub mod levels;
pub mod names;
pub mod plan;
pub mod scopes;
pub mod truth;
