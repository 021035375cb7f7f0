// Lines that share a walk: their rules gathered into one, and judged together.
// gathering: the rules of several lines in one tree; lines: one line after the other at a place of the walk; counting: the walk.
#![tactic(auto)]

mod counting;
pub mod gathering;
mod laying;
mod lines;
pub mod together;
