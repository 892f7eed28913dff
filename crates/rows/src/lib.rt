// The rows of the lent slices: everything above reads and writes the store by rows. Only this crate and `asyncio::words` know where a
// word stands (docs/LAYOUT.md).
#![tactic(auto)]

pub mod tables; // whole rows, loaded and stored
pub mod parts; // one part of a row, read from its own words
pub mod total; // parts read from a slice of any length
