// The machine with n call numbers: states of the old width carried over (specs/).
#![tactic(auto)]
