// Laws about products that differ in payload (specs/Apart.antt), and no code: what support may tell (docs/PAYLOAD.md).
#![tactic(auto)]
