// The definitions that all specifications are written with: choices, loops, arrays, lists, stores and replies; there are no functions.
#![tactic(auto)]
