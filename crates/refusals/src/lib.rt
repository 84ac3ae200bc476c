// No code: refusals 2 to 7 and 19 said of the lines of a text are in specs/, that the reader answers so in proofs/.
#![tactic(auto)]
