// The computed closure, verdict and answers and their theorems, in specs/. No code.

#![tactic(auto)]
