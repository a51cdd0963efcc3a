#![tactic(auto)]
// A bring-in and an expiry keep a store sound. See proofs/.
