// Demand 3 for the calls on lent words: one theorem over all lists of calls, and what follows from it, in specs/. It has no code of its own.

#![tactic(auto)]
