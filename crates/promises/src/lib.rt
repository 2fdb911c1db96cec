// What the demands promise of the public answers. It has no code, and no code stands on it: what is stated stands in specs/, and is proved in proofs/.
#![tactic(auto)]
