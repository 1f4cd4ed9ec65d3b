// The scheme: what key check, sealing and opening are, and the proof of demand 3. See specs/ and proofs/.
// It has no code: each call is a crate of its own, `key_check`, `sealing` and `unsealing`.

#![tactic(auto)]
