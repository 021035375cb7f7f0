// The writers: a tree in a flat list of nodes, written as text into a sheet that the caller lends.
// Each goes on behind what the sheet has; what has no room is left out.
#![tactic(auto)]

pub mod names;
pub mod nodes;
pub mod rules;
pub mod sheet;
pub mod terms;
