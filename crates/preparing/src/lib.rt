// What is looked at in a tested run area before a delivery changes anything: the receiver's step, and room for what it sends. It is inline for the reason
// that stands at `delivering::deliver_and_tell` (delivery).

#![tactic(auto)]

pub mod rooms;
pub mod stepping;
