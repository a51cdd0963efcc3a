#![tactic(auto)]
// A sound state, store by store: what each accepted call has to keep. See specs/ and proofs/.
