// Soundness: clauses 5 to 8.
// The queue's entries, the pending calls, the tasks of coroutines, the blocked tasks. Only a pending call that is not above all before it is looked
// for among those.
#![tactic(auto)]

pub mod entries; // clause 5
pub mod calls; // clause 6
pub mod one_task; // clause 7
pub mod blocked; // clause 8
