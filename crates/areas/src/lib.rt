// The run area in lent words: the addresses of its words, its leaves, and cells, which say of two processes where their link begins.

#![tactic(auto)]

pub mod places;
pub mod squares;
pub mod words;
