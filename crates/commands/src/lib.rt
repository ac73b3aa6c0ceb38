// What a script says, as values: commands, the calls of a board that they stand for, and the lines that answer them.
#![tactic(auto)]

pub mod answers;
pub mod codes;
pub mod values;
