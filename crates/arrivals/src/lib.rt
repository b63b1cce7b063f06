// Laws about arrivals, and no code: what is right to say of an arrival, as a function that the prover computes (specs/Computed.antt), and
// that it is right for every list of numbers (proofs/Right.antt).
#![tactic(auto)]
