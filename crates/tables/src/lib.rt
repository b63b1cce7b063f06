// No code: what a table of faults is, and what holds of every one (specs/Table.antt, proofs/Laws.antt).
#![tactic(auto)]
