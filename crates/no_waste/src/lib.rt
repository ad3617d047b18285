// No waste has no code: the claim is in specs/, and that it follows from best fit's definition and from demand 3 in proofs/.
#![tactic(auto)]
