// What the check program prints, as one function of its input's bytes, in specs/. It has no code of its own.

#![tactic(auto)]
