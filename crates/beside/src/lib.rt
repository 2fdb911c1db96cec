// Two messages side by side: what going over the bytes of both at once means, and what follows of it and of their differences.
// It has no code: what is stated stands in specs/, and is proved in proofs/.
#![tactic(auto)]
