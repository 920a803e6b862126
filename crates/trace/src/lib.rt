// The theory behind demand 3, for any machine whatsoever: definitions in specs/, theorems in proofs/, and no function.
#![tactic(auto)]
