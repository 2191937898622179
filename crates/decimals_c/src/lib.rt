// The archive of decimals for the comparison with the Rust: each export calls the function of decimals that has its name, and states its clauses again.
// A crate is a library or a static library, not both.
#![tactic(auto)]

pub mod exports;
