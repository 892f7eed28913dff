// States of tasks, and of awaited gathers with their open places (scheduler.rs): make_ready, block, removal.
#![tactic(auto)]

pub mod states; // make_ready, is_blocked, block_current_on, removal
pub mod places; // the search for an open place
pub mod awaited; // a gather that is awaited
