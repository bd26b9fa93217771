// What a run leaves, paper 01's examples and the theorems of demands 2 and 3, in specs/. No code.

#![tactic(auto)]
