// A delivery in a tested run area: refused with nothing changed, or carried out.

#![tactic(auto)]

pub mod delivering;
