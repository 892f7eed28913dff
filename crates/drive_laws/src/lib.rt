// `drive`'s store stays sound; a list number that is cut is answered the same (specs/).
#![tactic(auto)]
