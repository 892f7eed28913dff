// cancel_task (scheduler.rs): the task, and the tasks below what it waits for.
#![tactic(auto)]

pub mod cancel; // cancel_task
