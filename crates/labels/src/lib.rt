// Laws of labellings by representatives and offsets, in specs/. No code.

#![tactic(auto)]
