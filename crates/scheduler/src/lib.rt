// spawn, the searches, pending calls and cleanup (scheduler.rs).
#![tactic(auto)]

pub mod calls; // pending_call_ids
pub mod tasks; // the searches for a task, for an external
pub mod spawn; // spawn
pub mod cleanup; // can_await_eagerly, cleanup
mod skip; // where a search begins: objects passed over, several at a time
