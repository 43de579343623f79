// Demand 3 as theorems over the definitions: a new file reads as the old lists with one cue replaced. The theorems are in proofs/.
#![tactic(auto)]
