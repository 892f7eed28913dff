// The refusals from 3 on, in the order of document 01's table, and the list of calls that a wait writes.
#![tactic(auto)]

pub mod refusals; // the tests of the table
pub mod lent; // refusal 1, and the list of calls that a wait writes
