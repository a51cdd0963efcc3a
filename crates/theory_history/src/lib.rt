#![tactic(auto)]
// What a store holds after any calls: theorems of the definitions only. See proofs/.
