// The text of a model: a study that reads as the same model (specs/Text.antt, specs/ReadBack.antt).
#![tactic(auto)]

mod lines;
pub mod read_back;
pub mod study;
