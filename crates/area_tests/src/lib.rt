// The test of a run area: any words whatever, in one pass.

#![tactic(auto)]

pub mod testing;
