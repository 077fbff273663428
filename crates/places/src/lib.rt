// E3's claim about places, said of the reading definitions: definitions in specs/, theorems in proofs/. There is no code here.
#![tactic(auto)]
