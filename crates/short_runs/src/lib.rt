// No code: what all short runs of a plan are, and their computation, are in specs/; that they are one list, and each step on it, in proofs/.
#![tactic(auto)]
