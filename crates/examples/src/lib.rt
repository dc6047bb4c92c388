// The numbers of 01 by example, in specs/: every refusal, the ends of every range, zeros on refusals, and the numbers of the C interface.
// It has no code of its own.

#![tactic(auto)]
