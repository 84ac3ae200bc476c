// No code: what the three demands ask is in specs/, that the delivered reader and calls meet them in proofs/.
#![tactic(auto)]
