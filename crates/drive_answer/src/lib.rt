// What a record asks of the library, and the line of its answer.
#![tactic(auto)]

pub mod answered; // what is asked, and its line
