// Laws about products as a main header and a list of records (specs/Parts.antt), and no code: what is cut of one (Cut, CutHeader), what
// two are joined to (Join, JoinHeader), what a change of payload leaves (Payload), a cut held against its original (Against).
#![tactic(auto)]
