// What is remembered of a run between deliveries: how it is filled from the area, and how it follows a delivery.

#![tactic(auto)]

pub mod filling;
pub mod noting;
