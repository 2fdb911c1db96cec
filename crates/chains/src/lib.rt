// The longest chain of children that a table may have, and the shortest that it may not, computed. It has no code: what is
// stated stands in specs/, and is proved in proofs/. It stands apart since it takes longer than all of `wire`'s cases.
#![tactic(auto)]
