// One cue replaced after another, as theorems over the definitions: request Q-11. The theorems are in proofs/.
#![tactic(auto)]
