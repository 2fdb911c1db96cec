// What follows from the definitions in the crate wire. It has no code: what is stated stands in specs/, and is proved in proofs/.
#![tactic(auto)]
