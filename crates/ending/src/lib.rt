// The end of a check, for every order: one theorem over all lists of calls, in specs/. It has no code of its own.

#![tactic(auto)]
