// A pick in lent words that a start left (the crate `starting`), on any words and numbers whatever. It answers with the message; a refusal
// changes no word.
#![tactic(auto)]

pub mod picking;
