// Soundness kept, no panic, bounds (specs/).
#![tactic(auto)]
