// Laws of the integers, a solver of ring identities, laws of signed machine arithmetic, and runs of stores. Lemmas only: see proofs/.
// It has no code and no definition of the scheme.

#![tactic(auto)]
