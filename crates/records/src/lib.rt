// Records without their octets: definitions and theorems, in specs/ and proofs/. There is no code here.
#![tactic(auto)]
