// Laws about the judges' promises, and no code: the three demands (specs/Demands.antt, proofs/Demands.antt), and what a product is
// (specs/Product.antt).
#![tactic(auto)]
