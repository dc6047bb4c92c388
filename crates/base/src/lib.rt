// Plain mathematics for the floors above: choice by a test, sums, tests and searches over the numbers 1 to n, counts in a list. It has no code
// of its own.

#![tactic(auto)]
