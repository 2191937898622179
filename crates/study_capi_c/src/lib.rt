// The archive of study_capi for C, Rust and Python callers: each export calls the function of study_capi that has its name, and states its clauses again. A crate
// is a library or a static library, not both. A slice is passed as its pointer, then its length; include/katydidzinc_study.h describes the calls.
#![tactic(auto)]

pub mod read;
pub mod write;
