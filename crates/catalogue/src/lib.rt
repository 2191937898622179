// A catalogue of joints (request R-8): every choice of the four masks with its row count and its ids, a line each.
#![tactic(auto)]

pub mod choices;
pub mod text;
