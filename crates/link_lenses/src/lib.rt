// Links in a tested run area: one link, and what a process sends.

#![tactic(auto)]

pub mod links;
pub mod sending;
