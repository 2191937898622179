// The model of several joints in space (document 02, R-14). The calls, the storage's layout and single records of it are for callers; the other modules are not.
#![tactic(auto)]

pub mod calls;
mod joint_rows;
pub mod layout;
mod refusals;
pub mod single_records;
pub mod space;
mod store;
