//! What a reader believes of verdicts and of the commands.
#![tactic(auto)]

pub mod commands;
pub mod verdicts;
