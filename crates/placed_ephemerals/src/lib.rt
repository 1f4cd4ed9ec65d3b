// Ephemerals as places (document 02, wish 1): what spreading a list of places and sealing from one give, and what is promised of them.
// It has no code.

#![tactic(auto)]
