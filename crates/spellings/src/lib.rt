// CSV rows there and back: a row read byte by byte, and that this is what the desk's definitions say of all value lists. It has
// no code: what is stated stands in specs/, and is proved in proofs/.
#![tactic(auto)]
