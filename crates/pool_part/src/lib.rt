#![tactic(auto)]
// A store's part of each pool, lent on and given back. See specs/ and proofs/.
