// Delivery (async_exec.rs): a result or an error goes to its awaiter, through gathers, to a blocked task.
#![tactic(auto)]

pub mod task; // to a task
pub mod climb; // up the gathers; what a gather does with it is exec_fill
mod pending; // an external that is pending
pub mod future; // from an external
