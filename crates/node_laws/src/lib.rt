// Laws of the nodes of a cue text that both passes over the text cite. There is no code here: specs/ and proofs/ are what other crates cite.
#![tactic(auto)]
