// The programs that a weak contract would pass have no code: they are definitions in specs/, and each is refuted in proofs/.
#![tactic(auto)]
