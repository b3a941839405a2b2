// A law that hand-made proofs cite, in proofs/: a slice that is lent again for a call comes back. There is no code.
#![tactic(auto)]
