// The forms of the contracts: what a call of code asks of lent memory and what it does to it, said once. No function stands here.
#![tactic(auto)]
