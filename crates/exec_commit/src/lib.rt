// Committing a gather and the gathers nested in it (async_exec.rs): commit_gather_tree.
#![tactic(auto)]

pub mod step; // the items of one gather
pub mod settle; // opening, settling and unwinding
pub mod tree; // the walk through the gathers
mod frames; // the gathers that wait for a nested one

pub(crate) const OBJECTS: usize = asyncio::OBJECTS as usize;
