// What is read and changed in a tested run area, but for its links: the copied table and its chains, one record, the heading.

#![tactic(auto)]

pub mod chains;
pub mod heading;
pub mod records;
pub mod tested;
