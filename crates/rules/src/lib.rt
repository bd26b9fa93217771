// The rules of 2-pointer logic and its assignments, in specs/. No code.

#![tactic(auto)]
