// The three demands as theorems about the calls of `machine`: statements in specs/, proofs in proofs/, and no function.
#![tactic(auto)]
