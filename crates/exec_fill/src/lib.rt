// resolve_child and fail: a value or an error goes into a gather (async_exec.rs).
#![tactic(auto)]

pub mod fill; // the open places that name a source: filled, and their bits cleared
pub mod gather; // into a gather: completed or failed
