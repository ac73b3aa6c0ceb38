// The planning station: an edit file goes in, a report comes out.
#![tactic(auto)]

pub mod edit;
mod lines;
pub mod station;
mod text;
