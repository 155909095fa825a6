// The demands as theorems over the definitions of `rules`: see proofs/. There is no code here.
#![tactic(auto)]
