// Document 01's lines: an answer written into a lent buffer, as decimal numbers and words.
#![tactic(auto)]

pub mod answers; // the line of an answer
