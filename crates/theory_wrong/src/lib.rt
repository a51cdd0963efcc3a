#![tactic(auto)]
// What the contracts of the public calls rule out, by kinds of wrong outcomes, on closed inputs: theorems only. See specs/ and proofs/.
