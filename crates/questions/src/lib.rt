// The questions over any table: what has to follow a move, and what has to come before it, found by rounds.
#![tactic(auto)]

pub mod asking;
pub mod checks;
pub mod rounds;
