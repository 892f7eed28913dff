// A session over task records is the session over words (specs/).
#![tactic(auto)]
