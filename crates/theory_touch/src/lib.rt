#![tactic(auto)]
// A touch of one span and a removal keep a store sound. See proofs/.
