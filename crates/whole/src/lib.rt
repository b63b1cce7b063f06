// Laws about whole products, and no code: what a product says and how it is spelled are inverse (specs/Values.antt, specs/Spelled.antt).
#![tactic(auto)]
