// Lines of hexadecimal, the reader's refusals and the program's output, in specs/. No code.

#![tactic(auto)]
