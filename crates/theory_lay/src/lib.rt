#![tactic(auto)]
// Laws of a store as a value: how it is read from the pools and laid back; and set-up's state is sound. See proofs/.
