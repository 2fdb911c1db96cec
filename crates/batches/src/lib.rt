// What follows for night batches: laws about desk's definitions, which the batch calls stand on. It has no code.
#![tactic(auto)]
