// Document 01's worked examples, proved of the definitions. Statements and proofs only: see specs/ and proofs/.
// It has no code, and no other crate uses it.

#![tactic(auto)]
