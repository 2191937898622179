// The model of several joints. The calls, the storage's layout and single records of it, reactions and residuals are for callers; the plane as a kind of system, and rows of all joints as an array, are for crates above, which try
// the rules that these ask for; the other modules below the calls are for neither.
#![tactic(auto)]

pub mod all_joints;
pub mod calls;
mod counts;
mod joint_rows;
pub mod layout;
pub mod plane;
pub mod reactions;
pub mod refusal_place;
mod refusals;
pub mod single_records;
mod store;
mod targets;
