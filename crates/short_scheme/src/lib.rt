// Short messages sealed and opened: what the two calls are, what is promised of them, and demand 3. See specs/ and proofs/.
// It has no code: each call is a crate of its own, `short_sealing` and `short_opening`.

#![tactic(auto)]
