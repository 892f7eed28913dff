// Soundness: clauses 1 to 4.
// What each row says by itself. Each clause asks a test of every row in use, and stops at the first that fails.
#![tactic(auto)]

pub mod numbers; // clauses 1 and 2
pub mod values; // clauses 3 and 4
