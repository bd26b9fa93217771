// Laws of whole numbers, in specs/. No code.

#![tactic(auto)]
