// Polynomials of N coefficients of Z[ω], modulo X^N − 1: definitions and laws, for every N. See specs/ and proofs/.
// It has no code: arrays are tested in `array_limits`, `set_tests` and `array_sets`, and multiplied in `products`.

#![tactic(auto)]
