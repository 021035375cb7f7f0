// Judging by a plan: the counts of a rule's choices and its first breaking one.
// The plan of a call, counting by it, and the walk that joins both to an order of our own.
#![tactic(auto)]

pub mod counting;
pub mod planning;
pub mod walking;
