#![tactic(auto)]
// Every call of the document keeps a sound state sound, store by store, and its answers fit their lists. Theorems only, see proofs/.
