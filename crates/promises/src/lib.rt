// All that is promised, on one page: specs/Promises.antt. No code.

#![tactic(auto)]
