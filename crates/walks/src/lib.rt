// Steps of proofs by hand that several crates share: straight code over lent tables. No code.
#![tactic(auto)]
