// Scripts: lines of text as commands, scripts as edit files, and edit files as scripts.
#![tactic(auto)]

pub mod edits;
pub mod reading;
