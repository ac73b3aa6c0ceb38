// What the random histories and the benchmark share: a plain graph search that answers the calls of a board in another way, whoever can answer them, random numbers, and counts.
// The search is an instrument of tests. It is proved safe and ending, and no more: that it answers right is only tested, by comparing it with boards.
#![tactic(auto)]

mod codes;
pub mod graph;
mod links;
pub mod player;
pub mod random;
mod search;
pub mod tally;
