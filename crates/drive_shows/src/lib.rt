// The line of a show.
#![tactic(auto)]

pub mod shows;
