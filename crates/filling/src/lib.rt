// Laws of filling a lent buffer, for whoever stores entries one behind the other. They are in specs; there is no code.
#![tactic(auto)]
