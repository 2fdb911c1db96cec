// The question for one item by its path, answered along the path, and that this is the same answer. It has no code: what is
// stated stands in specs/, and is proved in proofs/.
#![tactic(auto)]
