// The board: waits between moves, over any table and any store that keep their meanings.
#![tactic(auto)]

pub mod board;
mod cells;
