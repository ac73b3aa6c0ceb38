// Runs: the calls of a board as values, carried out one after the other, and the law that every run has.
#![tactic(auto)]

pub mod calls;
pub mod replays;
pub mod steps;
