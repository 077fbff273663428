// The demands, said of calls as their caller sees them: definitions in specs/, theorems in proofs/. There is no code here.
#![tactic(auto)]
