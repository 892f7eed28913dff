// One item of a gather in its commit: a value, an error, or left open (async_exec.rs).
#![tactic(auto)]

pub mod item; // one item
