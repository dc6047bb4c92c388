// What each call does to the words of an area, and any list of calls, in specs/. It has no code of its own.

#![tactic(auto)]
