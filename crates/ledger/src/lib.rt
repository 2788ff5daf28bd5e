// Demand 3 over histories of the calls that ship: the ledger that a caller keeps of them (specs), and the law (proofs). No code.
#![tactic(auto)]
