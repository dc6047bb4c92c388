// Running on in lent words that a start left (the crate `starting`), in the fixed order and with a seed, on any words and numbers whatever. A
// refusal keeps the deliveries made before it and says how many they are.
#![tactic(auto)]

pub mod running;
pub mod shuffled;
