// Objects are made, and results of calls applied to them (async_exec.rs).
#![tactic(auto)]

pub mod making; // coroutines, externals, gathers
pub mod results; // apply_future_results
