// A repeatable load (document 02, R-11): the model that a 32-bit seed draws.
#![tactic(auto)]

pub mod draws;
pub mod seeded;
