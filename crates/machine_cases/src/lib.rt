// P1 to P12, other cases, sound and unsound stores, computed (specs/).
#![tactic(auto)]
