// Laws of the definitions in `format`. There is no code here: proofs/ is what other crates cite.
#![tactic(auto)]
