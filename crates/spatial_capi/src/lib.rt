// The library's calls on a model in space for C, Rust and Python callers, over numbers and slices; a slice is passed as its pointer, then its length. include/katydidzinc_space.h describes it.
#![tactic(auto)]

pub mod calls;
pub mod stored;
