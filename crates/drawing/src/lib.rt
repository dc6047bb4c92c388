// What the program `trials` draws: wait graphs, the families of cases that they make, and random numbers. It stands on no other crate, and
// promises only that it is safe and ends.
#![tactic(auto)]

pub mod families;
pub mod graphs;
pub mod numbers;
pub mod waits;
