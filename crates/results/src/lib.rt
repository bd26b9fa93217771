// What the functions for C return: specs/Results.antt. No code. A crate of its own, since a static library is no library for other crates.

#![tactic(auto)]
