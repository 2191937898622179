// Studies as text for C, Rust and Python callers: the reader and the writer over bytes and lent slices; a slice is passed as its pointer, then its
// length. include/katydidzinc_study.h describes it.
#![tactic(auto)]

pub mod read;
pub mod write;
