// Laws of the definition, for proofs of code and for the theorems (specs/).
#![tactic(auto)]
