// The calls of a study's text, run one after the other, each on what the one before left (specs/Runs.antt): the program study runs each line by one call of `turn`.
#![tactic(auto)]

pub mod acts;
pub mod motors;
pub mod places;
pub mod runs;
pub mod settling;
pub mod turns;
